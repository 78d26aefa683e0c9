//! The forms in which a local is assigned.

ghost use Rattle.std.specs.Prelude.{◌≡◌};
ghost use Rattle.vg_names.specs.Assigned.{form_view};
ghost use Rattle.vg_names.specs.Gathered.{form_behind, span_of_forms};

use crate::assignments::Form;
use crate::same::same_width;
use vg_base::Width;

/// The forms in which a local is assigned.
#[derive(Clone, Copy)]
pub(crate) enum Forms {
    /// None yet.
    Unseen,
    /// `name.elem` alone, with one size.
    Element(Width),
    Mixed,
}

impl Forms {
    /// The forms in which a local is assigned, after one assignment more in this form.
    pub(crate) fn with(self, form: Form) -> Forms
        ensures { result ≡ form_behind self (form_view form) }
    {
        match (self, form) {
            (Forms::Unseen, Form::WholeElement(size)) => Forms::Element(size),
            (Forms::Element(first), Form::WholeElement(size)) => {
                if same_width(first, size) {
                    self
                } else {
                    Forms::Mixed
                }
            }
            _ => Forms::Mixed,
        }
    }

    /// How many bits the bare name means.
    pub(crate) fn span(self) -> Option<u128>
        ensures { result ≡ span_of_forms self }
    {
        match self {
            Forms::Element(size) => Some(size.bits() as u128),
            _ => None,
        }
    }
}
