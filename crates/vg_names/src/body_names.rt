//! The names of a body: its registers and its number variables.

ghost use Rattle.std.specs.Prelude.{◌≡◌, ◌++◌, [], false, map, filter, length, get_or, IfOk};
ghost use Rattle.std.specs.List.{list_any};
ghost use Rattle.vg_pseudo.specs.Names.{has_name};
ghost use Rattle.vg_pseudo.specs.Resolve.{local_assignments, local_registers, number_locals, register_assignments};
ghost use Rattle.vg_pseudo.specs.Tree.{statements_of};
ghost use Rattle.vg_names.specs.Assigned.{assignment_view};
ghost use Rattle.vg_names.specs.Bodies.{registers_of_local, with_variable, registers_from, variables_behind, new_register};
ghost use Rattle.vg_names.specs.declared.forms.Forms.TheVariants.{Unseen};
ghost use Rattle.vg_names.specs.Gathered.{signed_after};
ghost use Rattle.vg_names.specs.Registers.{has_sign, register_view};

use crate::assignments::{Assignment, collect};
use crate::forms::Forms;
use crate::locals::{forms_of, locals_of, signed_locals};
use crate::names::Names;
use crate::registers::{Register, Registers};
use std::alloc::{AllocError, Global};
use vg_base::Name;
use vg_pseudo::Stmt;

/// The registers and the number variables of a body.
#[derive(Drop)]
pub(crate) struct BodyNames {
    pub(crate) registers: Registers,
    pub(crate) variables: Names,
}

/// A local that is a register.
fn local_register(
    alloc: Global,
    name: &[u8],
    is_signed: bool,
    forms: Forms,
) -> Result<Register, AllocError>
    ensures { IfOk result (λ r. register_view r ≡ new_register name.now is_signed forms) }
{
    let name = Name::new(alloc, name)?;
    Ok(Register {
        name,
        width: 512,
        is_variable: true,
        signed_slices: false,
        signed_whole: is_signed,
        span: forms.span(),
    })
}

/// The names of a body, and this local: a register, where it is marked, else a number variable.
fn with_local(
    alloc: Global,
    names: BodyNames,
    marked: &Names,
    name: &[u8],
    is_signed: bool,
    forms: Forms,
) -> Result<BodyNames, AllocError>
    ensures registers { IfOk result (λ b. b.registers ≡ names.registers ++ registers_of_local
        marked.now name.now is_signed forms) }
    ensures variables { IfOk result (λ b. b.variables ≡ with_variable marked.now names.variables
        name.now) }
{
    let BodyNames {
        registers,
        mut variables,
    } = names;
    if marked.has(name) {
        let register = local_register(alloc, name, is_signed, forms)?;
        let registers = registers.with(alloc, register)?;
        Ok(BodyNames {
            registers,
            variables,
        })
    } else {
        variables.add(alloc, name)?;
        Ok(BodyNames {
            registers,
            variables,
        })
    }
}

fn flag_at(flags: &[bool], number: usize) -> bool
    ensures { result ≡ get_or flags.now number false }
{
    flags.get(number).copied().unwrap_or(false)
}

fn forms_at(forms: &[Forms], number: usize) -> Forms
    ensures { result ≡ get_or forms.now number Unseen }
{
    forms.get(number).copied().unwrap_or(Forms::Unseen)
}

/// The names of a body that begins with these registers and has these locals.
fn with_locals(
    alloc: Global,
    given: Registers,
    marked: &Names,
    locals: &Names,
    flags: &[bool],
    forms: &[Forms],
) -> Result<BodyNames, AllocError>
    ensures registers { IfOk result (λ b. b.registers ≡ given ++ registers_from marked.now flags.now
        forms.now 0 locals.now) }
    ensures variables { IfOk result (λ b. b.variables ≡ variables_behind marked.now [] locals.now) }
{
    let mut names = BodyNames {
        registers: given,
        variables: Names::new(alloc),
    };
    let mut number: usize = 0;
    'locals: for local in locals.as_slice() {
        let is_signed = flag_at(flags, number);
        let form = forms_at(forms, number);
        names = with_local(alloc, names, marked, local.as_slice(), is_signed, form)?;
        number += 1;
    }
    Ok(names)
}

/// Which of the locals are signed.
fn flags_of(
    alloc: Global,
    given: &Registers,
    locals: &Names,
    assignments: &[Assignment],
) -> Result<Vec<bool>, AllocError>
    ensures { IfOk result (λ flags. flags.items ≡ signed_after (filter has_sign given.now)
        locals.now (map assignment_view assignments.now) (length assignments.now)) }
{
    let signed = given.signed(alloc)?;
    signed_locals(alloc, signed.as_slice(), locals, assignments)
}

/// Leaves the assignments to names that are marked.
fn keep_marked(marked: &Names, assignments: &mut Vec<Assignment>)
    ensures { assignments.new.items ≡ filter (λ a. has_name marked.now a.name.now)
        assignments.old.items }
{
    assignments.retain(|assignment| marked.has(assignment.name));
}

/// Leaves the assignments to locals that are registers: the name of a number variable is unsigned.
fn keep_register_assignments(marked: &Names, assignments: &mut Vec<Assignment>)
    ensures { map assignment_view assignments.new.items ≡
        register_assignments marked.now (map assignment_view assignments.old.items) }
{
    keep_marked(marked, assignments);
}

/// The names of a body that begins with these registers, in which these names stand with brackets or
/// with an element.
pub(crate) fn body_names(
    alloc: Global,
    given: Registers,
    marked: &Names,
    body: &Stmt,
) -> Result<BodyNames, AllocError>
    ensures registers { IfOk result (λ b. b.registers ≡ given ++ local_registers given marked.now
        (local_assignments given (statements_of body.now))) }
    ensures variables { IfOk result (λ b. b.variables ≡ number_locals marked.now (local_assignments
        given (statements_of body.now))) }
{
    let mut assignments = Vec::new(alloc);
    collect(alloc, &given, &[], body, &mut assignments)?;
    let locals = locals_of(alloc, assignments.as_slice())?;
    keep_register_assignments(marked, &mut assignments);
    let flags = flags_of(alloc, &given, &locals, assignments.as_slice())?;
    let forms = forms_of(alloc, &locals, assignments.as_slice())?;
    with_locals(
        alloc,
        given,
        marked,
        &locals,
        flags.as_slice(),
        forms.as_slice(),
    )
}
