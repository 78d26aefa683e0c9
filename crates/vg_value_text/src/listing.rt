//! The lines on the values of a kernel.

ghost use Rattle.std.specs.Prelude.{◌≡◌, ◌+◌, ◌++◌, ◌≤◌, IfOk, OnOk, true, codes, length, map, slice_index_or};
ghost use Rattle.std.specs.Fmt.{decimal};
ghost use Rattle.vg_base.specs.Width.{bits_of};
ghost use Rattle.vg_compile.specs.Means.{param_of};
ghost use Rattle.vg_kernel.specs.Tree.{tree_of};
ghost use Rattle.vg_kernel.specs.WellFormed.{IsWellFormed};
ghost use Rattle.vg_program.specs.Text.{address_text};
ghost use Rattle.vg_shapes.specs.Sound.{IsSound, result_bits};
ghost use Rattle.vg_shapes.specs.Units.{arguments};
ghost use Rattle.vg_ssa.specs.Cuts.{HasCuts};
ghost use Rattle.vg_ssa.specs.Numbering.{IsNumbering};
ghost use Rattle.vg_ssa.specs.ValueTerm.{no_term, operand_term};
ghost use Rattle.vg_terms.specs.Term.{constant, tree};
ghost use Rattle.vg_terms.specs.Text.{text};
ghost use Rattle.vg_value_text.specs.Listed.{argument_line, argument_lines, number_behind, bits_text, number_text, terms_text, unit_line, unit_lines, values_text};
ghost use Rattle.vg_value_text.specs.Names.{names_of};
ghost use Rattle.vg_value_text.specs.Shown.{terms_in};

use crate::names::names_of;
use std::alloc::{AllocError, Global};
use vg_base::{Address, Width};
use vg_compile::params_of;
use vg_kernel::Kernel;
use vg_program::Param;
use vg_program::param_kind::ParamKind;
use vg_program::parts::{put_address, put_number};
use vg_shapes::{Operator, Ssa, SsaUnit, Wanted};
use vg_ssa::{number_more, number_values};
use vg_terms::{Names, Term, make_const, print_term};

/// The values of a kernel, and what is shown of them.
pub(crate) struct Values {
    pub(crate) params: Vec<Param>,
    pub(crate) names: Names,
    pub(crate) ssa: Ssa,
    /// Whether cut terms are shown, which the numbered values then have.
    pub(crate) more: bool,
}

/// Written out, so that the exits of an owner call it: a derived one would be proved anew at each.
impl Drop for Values {
    fn drop(self) {
        let Values {
            params: _,
            names: _,
            ssa: _,
            more: _,
        } = self;
    }
}

/// Appends `value 3 `.
fn put_number_text(alloc: Global, to: &mut Vec<u8>, number: u32) -> Result<(), AllocError>
    ensures { OnOk result (to.new.items ≡ to.old.items ++ number_text number) }
{
    to.extend_from_slice(b"value ")?;
    put_number(alloc, to, u64::from(number))?;
    to.extend_from_slice(b" ")
}

/// Appends `i16 `.
fn put_bits(alloc: Global, to: &mut Vec<u8>, bits: u32) -> Result<(), AllocError>
    ensures { OnOk result (to.new.items ≡ to.old.items ++ bits_text bits) }
{
    to.extend_from_slice(b"i")?;
    put_number(alloc, to, u64::from(bits))?;
    to.extend_from_slice(b" ")
}

/// The width of what an operation gives: a comparison gives a bit.
fn result_bits(op: Operator, width: Width) -> u32
    ensures { result ≡ result_bits op width }
{
    match op {
        Operator::Compare(_) => 1,
        _ => width.bits(),
    }
}

/// Appends a constant of a width.
fn put_constant(
    alloc: Global,
    to: &mut Vec<u8>,
    names: &Names,
    width: u32,
    value: u128,
) -> Result<(), AllocError>
    ensures { OnOk result (to.new.items ≡ to.old.items ++ text names.now (constant width value)) }
{
    let constant = make_const(width, value);
    print_term(alloc, &constant, names, to)
}

/// Appends the term of a value by its number.
fn put_value(
    alloc: Global,
    to: &mut Vec<u8>,
    names: &Names,
    terms: &[Term],
    number: u32,
) -> Result<(), AllocError>
    ensures { OnOk result (to.new.items ≡ to.old.items
        ++ text names.now (slice_index_or (map tree terms.now) number no_term)) }
{
    let index = number as usize;
    if index < terms.len() {
        print_term(alloc, &terms[index], names, to)
    } else {
        put_constant(alloc, to, names, 8, 0)
    }
}

/// Appends the term of an operand.
fn put_operand(
    alloc: Global,
    to: &mut Vec<u8>,
    names: &Names,
    terms: &[Term],
    operand: Wanted,
) -> Result<(), AllocError>
    ensures { OnOk result (to.new.items ≡ to.old.items
        ++ text names.now (operand_term (map tree terms.now) operand)) }
{
    match operand {
        Wanted::Value(number) => put_value(alloc, to, names, terms, number),
        Wanted::Constant { width, value } => put_constant(alloc, to, names, width, value),
        Wanted::Nothing => put_constant(alloc, to, names, 8, 0),
    }
}

/// Appends the term of an operand, and its cut term where cut terms are shown.
fn put_terms(
    alloc: Global,
    to: &mut Vec<u8>,
    values: &Values,
    operand: Wanted,
) -> Result<(), AllocError>
    ensures { OnOk result (to.new.items ≡ to.old.items
        ++ terms_text values.now.names (terms_in values.now) operand) }
{
    let ssa = &values.ssa;
    put_operand(alloc, to, &values.names, ssa.terms.as_slice(), operand)?;
    if values.more {
        to.extend_from_slice(b" cut ")?;
        put_operand(alloc, to, &values.names, ssa.cuts.as_slice(), operand)?;
    }
    Ok(())
}

/// Appends the line on a load.
fn put_load(
    alloc: Global,
    to: &mut Vec<u8>,
    params: &[Param],
    address: Address,
    width: Width,
) -> Result<(), AllocError>
    ensures { OnOk result (to.new.items ≡ to.old.items ++ bits_text (bits_of width)
        ++ codes "load " ++ address_text params.now address) }
{
    put_bits(alloc, to, width.bits())?;
    to.extend_from_slice(b"load ")?;
    put_address(alloc, to, params, address)
}

/// Appends what stands in front of the term of what is stored.
fn put_store(
    alloc: Global,
    to: &mut Vec<u8>,
    params: &[Param],
    address: Address,
    width: Width,
) -> Result<(), AllocError>
    ensures { OnOk result (to.new.items ≡ to.old.items ++ codes "store " ++ decimal (bits_of width)
        ++ codes " " ++ address_text params.now address ++ codes " ") }
{
    to.extend_from_slice(b"store ")?;
    put_number(alloc, to, u64::from(width.bits()))?;
    to.extend_from_slice(b" ")?;
    put_address(alloc, to, params, address)?;
    to.extend_from_slice(b" ")
}

/// Appends the line on the unit of a number.
fn put_unit(
    alloc: Global,
    to: &mut Vec<u8>,
    values: &Values,
    number: u32,
    unit: &SsaUnit,
) -> Result<(), AllocError>
    requires { values.now.names ≡ names_of values.now.params.items }
    ensures { OnOk result (to.new.items ≡ to.old.items
        ++ unit_line values.now.params.items (terms_in values.now) number unit.now) }
{
    let params = values.params.as_slice();
    put_number_text(alloc, to, number)?;
    match *unit {
        SsaUnit::Load { address, width } => put_load(alloc, to, params, address, width)?,
        SsaUnit::Store {
            address,
            width,
            value,
        } => {
            put_store(alloc, to, params, address, width)?;
            put_terms(alloc, to, values, value)?;
        }
        SsaUnit::Operation { op, width, .. } => {
            put_bits(alloc, to, result_bits(op, width))?;
            put_terms(alloc, to, values, Wanted::Value(number))?;
        }
    }
    to.extend_from_slice(b"\n")
}

/// Appends the lines on the units.
fn put_units(alloc: Global, to: &mut Vec<u8>, values: &Values, first: u32) -> Result<(), AllocError>
    requires names { values.now.names ≡ names_of values.now.params.items }
    requires few { first + length values.now.ssa.units ≤ 65536 }
    ensures { OnOk result (to.new.items ≡ to.old.items ++ unit_lines values.now.params.items
        (terms_in values.now) first values.now.ssa.units) }
{
    let mut number = first;
    let mut left = values.ssa.units.as_slice();
    'units: while let [unit, behind @ ..] = left {
        put_unit(alloc, to, values, number, unit)?;
        number += 1;
        left = behind;
    }
    Ok(())
}

/// Appends the line on a parameter: none on a pointer.
fn put_argument(
    alloc: Global,
    to: &mut Vec<u8>,
    number: u32,
    param: &Param,
) -> Result<(), AllocError>
    ensures { OnOk result (to.new.items ≡ to.old.items
        ++ argument_line number param.now.kind param.now.name) }
{
    match param.kind {
        ParamKind::Pointer => Ok(()),
        ParamKind::Integer(width) => {
            put_number_text(alloc, to, number)?;
            put_bits(alloc, to, width.bits())?;
            to.extend_from_slice(b"parameter ")?;
            to.extend_from_slice(param.name.bytes())?;
            to.extend_from_slice(b"\n")
        }
    }
}

/// The number behind that of a parameter: pointers have none.
fn number_behind(number: u32, kind: ParamKind) -> u32
    requires { number ≤ 65536 }
    ensures { result ≡ number_behind number kind }
{
    if kind.is_integer() {
        number + 1
    } else {
        number
    }
}

/// Appends the lines on the integer parameters.
fn put_arguments(alloc: Global, to: &mut Vec<u8>, params: &[Param]) -> Result<(), AllocError>
    requires { length params.now ≤ 16 }
    ensures { OnOk result (to.new.items ≡ to.old.items ++ argument_lines 0 params.now) }
{
    let mut number = 0;
    let mut left = params;
    'params: while let [param, behind @ ..] = left {
        put_argument(alloc, to, number, param)?;
        number = number_behind(number, param.kind);
        left = behind;
    }
    Ok(())
}

/// The numbered values of a kernel, with cut terms where more is asked for.
fn numbered(alloc: Global, kernel: &Kernel, more: bool) -> Result<Ssa, AllocError>
    requires { IsWellFormed (tree_of kernel.now) }
    ensures exact { IfOk result (IsNumbering (tree_of kernel.now)) }
    ensures sound { IfOk result IsSound }
    ensures cuts { IfOk result (λ ssa. more ≡ true → HasCuts (tree_of kernel.now) ssa) }
{
    if more {
        number_more(alloc, kernel)
    } else {
        number_values(alloc, kernel)
    }
}

/// The number of the first unit.
fn first_unit(ssa: &Ssa) -> u32
    requires { arguments ssa.now ≤ 16 }
    ensures { result ≡ arguments ssa.now }
{
    ssa.arguments() as u32
}

/// The lines on the values of a kernel, by rising number, as `compile` numbers them: the integer
/// parameters first, then its loads, operations and stores in the order in which they run.
///
/// An integer parameter has the line `value N iW parameter NAME`, a load `value N iW load P+O`, an
/// operation `value N iW TERM` with its canonical term, and a store `value N store W P+O TERM` with
/// the term of what it stores. W is a width in bits, that of a comparison 1. In terms a load is
/// `P+O@N:W`, and a value whose term is not looked into `#N:W`. With `more` the lines of operations
/// and stores end with ` cut TERM`: the term over the names of the values that it is made of, or of
/// what is stored. Fails for want of memory alone.
pub fn list_values(alloc: Global, kernel: &Kernel, more: bool) -> Result<Vec<u8>, AllocError>
    requires { IsWellFormed (tree_of kernel.now) }
    ensures { IfOk result (λ lines. lines.items ≡ values_text (tree_of kernel.now) more) }
{
    let params = params_of(alloc, kernel.params.as_slice())?;
    let names = names_of(alloc, params.as_slice())?;
    let ssa = numbered(alloc, kernel, more)?;
    let first = first_unit(&ssa);
    let values = Values {
        params,
        names,
        ssa,
        more,
    };
    let mut lines = Vec::new(alloc);
    put_arguments(alloc, &mut lines, values.params.as_slice())?;
    put_units(alloc, &mut lines, &values, first)?;
    Ok(lines)
}
