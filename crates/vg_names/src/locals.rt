//! What is gathered of the locals of a body along its assignments.

ghost use Rattle.std.specs.Prelude.{◌≡◌, ◌||◌, map, length, replicate, IfOk};
ghost use Rattle.vg_pseudo.specs.Resolve.{locals_of};
ghost use Rattle.vg_names.specs.Assigned.{assignment_view, form_view};
ghost use Rattle.vg_names.specs.declared.forms.Forms.TheVariants.{Unseen};
ghost use Rattle.vg_names.specs.Gathered.{gathered, changed, form_behind, with_form, signed_after, signed_next};
ghost use Rattle.vg_names.specs.Registers.{register_view};

use crate::assignments::{Assignment, Form};
use crate::forms::Forms;
use crate::names::Names;
use crate::registers::Register;
use crate::signed_names::SignedNames;
use std::alloc::{AllocError, Global};

/// The names that these assign, each once.
pub(crate) fn locals_of(alloc: Global, assignments: &[Assignment]) -> Result<Names, AllocError>
    ensures { IfOk result (λ names. names ≡ locals_of (map assignment_view assignments.now)) }
{
    let mut names = Names::new(alloc);
    'assignments: for assignment in assignments {
        names.add(alloc, assignment.name)?;
    }
    Ok(names)
}

/// The same value so many times.
fn repeated<T: Copy>(alloc: Global, value: T, count: usize) -> Result<Vec<T>, AllocError>
    ensures { IfOk result (λ v. v.items ≡ replicate count value) }
{
    let mut values = Vec::new(alloc);
    values.resize(count, value)?;
    Ok(values)
}

/// One form more of a local, if there is one.
fn note_form(forms: &mut Vec<Forms>, local: Option<usize>, form: Form)
    ensures { forms.new.items ≡ changed local (λ s. form_behind s (form_view form))
        forms.old.items }
{
    if let Some(local) = local {
        let count = forms.as_slice().len();
        if local < count {
            forms[local] = forms[local].with(form);
        }
    }
}

/// The forms in which each of these locals is assigned.
pub(crate) fn forms_of(
    alloc: Global,
    names: &Names,
    assignments: &[Assignment],
) -> Result<Vec<Forms>, AllocError>
    ensures { IfOk result (λ forms. forms.items ≡ gathered with_form Unseen names.now (map
        assignment_view assignments.now)) }
{
    let mut forms = repeated(alloc, Forms::Unseen, names.count())?;
    'assignments: for assignment in assignments {
        let local = names.place(assignment.name);
        note_form(&mut forms, local, assignment.form);
    }
    Ok(forms)
}

/// A local, if there is one, is signed where this holds.
fn note_sign(flags: &mut Vec<bool>, local: Option<usize>, is_signed: bool)
    ensures { flags.new.items ≡ changed local (λ b. b || is_signed) flags.old.items }
{
    if let Some(local) = local {
        let count = flags.as_slice().len();
        if local < count {
            flags[local] = flags[local] | is_signed;
        }
    }
}

/// Which locals are signed in one step more than is known.
fn signed_next(
    alloc: Global,
    known: SignedNames,
    assignments: &[Assignment],
) -> Result<Vec<bool>, AllocError>
    ensures { IfOk result (λ flags. flags.items ≡ signed_next (map (λ r. register_view r.now)
        known.entry.given.now) known.entry.locals.now (map assignment_view assignments.now)
        known.entry.flags.now) }
{
    let mut flags = repeated(alloc, false, known.locals.count())?;
    'assignments: for assignment in assignments {
        let is_signed = known.is_signed(assignment.turns.as_slice(), assignment.value);
        note_sign(&mut flags, known.locals.place(assignment.name), is_signed);
    }
    Ok(flags)
}

/// Which locals are signed, each local being shown to be so in finitely many steps.
pub(crate) fn signed_locals<'a>(
    alloc: Global,
    given: &'a [&'a Register],
    locals: &'a Names,
    assignments: &[Assignment],
) -> Result<Vec<bool>, AllocError>
    ensures { IfOk result (λ flags. flags.items ≡ signed_after (map (λ r. register_view r.now)
        given.now) locals.now (map assignment_view assignments.now) (length assignments.now)) }
{
    let mut flags = repeated(alloc, false, locals.count())?;
    'steps: for _step in 0..assignments.len() {
        let next = {
            let known = SignedNames {
                given,
                locals,
                flags: flags.as_slice(),
            };
            signed_next(alloc, known, assignments)?
        };
        if next.as_slice() == flags.as_slice() {
            return Ok(flags);
        }
        flags = next;
    }
    Ok(flags)
}
