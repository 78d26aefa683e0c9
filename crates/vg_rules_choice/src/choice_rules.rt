//! The rules for choices as a table.

ghost use Rattle.vg_rules_choice.specs.Laws.{first_row-sound};
ghost use Rattle.vg_rules_choice.specs.Rules.{first_row};

use crate::narrowing::{
    is_narrow_comparison, is_narrow_least_or_greatest, narrow_comparison, narrow_least_or_greatest,
};
use crate::selections::{
    is_known_selection, is_negated_selection, is_selection_is_least_or_greatest, known_selection,
    negated_selection, selection_is_least_or_greatest,
};
use std::alloc::{AllocError, Global};
use vg_terms::{Rule, Term, first_row, some_row};

/// The rules for choices, in the order of this table: the first row that applies is taken.
///
/// Selections that are decided go, opposite conditions are turned round, selections between the sides of
/// their comparison become least or greatest, and least, greatest and comparisons are made as narrow as
/// the known widths of their operands allow.
#[derive(Clone, Copy)]
pub struct ChoiceRules;

// The rows in their order: the test of each, and what it makes of a term.
macro_rules! table {
    ($use_of:ident $arguments:tt) => {
        $use_of! { $arguments
            // A selection of one term twice, or by a constant, is the term selected.
            is_known_selection => known_selection,
            // A selection by the opposite of a condition is one by the condition, the terms exchanged.
            is_negated_selection => negated_selection,
            // A selection between the sides of its comparison is the lesser or the greater of them.
            is_selection_is_least_or_greatest => selection_is_least_or_greatest,
            // A least or greatest whose operands need fewer bits is the extension of one in those.
            is_narrow_least_or_greatest => narrow_least_or_greatest,
            // A comparison whose operands need fewer bits is one in those.
            is_narrow_comparison => narrow_comparison,
        }
    };
}

impl Rule for ChoiceRules {
    ghost first_row = { λ _. first_row };

    fn applies(&self, t: &Term) -> bool {
        table!(some_row(t))
    }

    fn apply(&self, alloc: Global, t: Term) -> Result<Term, AllocError> {
        table!(first_row(alloc, t))
    }

    ghost keeps = { λ _ old new f e. (first_row-sound old new f e).keeps };

    ghost falls = { λ _ old new f e. (first_row-sound old new f e).falls };
}
