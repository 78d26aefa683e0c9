//! Operations with their names resolved.

ghost use Rattle.std.specs.Prelude.{◌≡◌, ◌++◌, ◌∷◌, [], map, length, IfOk};
ghost use Rattle.vg_pseudo.specs.Resolve.{define_scope, function_of, functions_of, result_register, resolve, scope_of};
ghost use Rattle.vg_pseudo.specs.Names.{bracketed_in};
ghost use Rattle.vg_pseudo.specs.Tree.{define_of, operation_of, statements_of};
ghost use Rattle.vg_names.specs.Naming.{Gives};
ghost use Rattle.vg_names.specs.Pieces.{body_over};
ghost use Rattle.vg_names.specs.Views.{body_of, function_view, resolved_of};

use crate::body::{resolved_body, resolved_function};
use crate::body_names::{BodyNames, body_names};
use crate::given_registers::{define_registers, operand_registers, result_register};
use crate::last_names::LastNames;
use crate::marks::{mark, mark_in};
use crate::name_fault::NameFault;
use crate::names::Names;
use crate::registers::Registers;
use crate::resolved::{Body, Function, Resolved};
use std::alloc::{AllocError, Global};
use vg_base::Items;
use vg_pseudo::{Define, Header, Operation, Stmt};

/// DEFINEs that are resolved, and their names.
#[derive(Drop)]
struct Defined {
    functions: Vec<Function>,
    names: LastNames,
}

/// The names of a DEFINE.
fn define_names(alloc: Global, define: &Define) -> Result<BodyNames, AllocError>
    ensures registers { IfOk result (λ b. b.registers ≡ (define_scope [] (define_of
        define.now)).registers) }
    ensures variables { IfOk result (λ b. b.variables ≡ (define_scope [] (define_of
        define.now)).variables) }
{
    let given = define_registers(alloc, define.params.as_slice())?;
    let mut marked = Names::new(alloc);
    mark_in(alloc, &[], &define.body, &mut marked)?;
    mark(alloc, &[], &define.answer, &mut marked)?;
    body_names(alloc, given, &marked, &define.body)
}

/// A DEFINE after those of these names.
fn resolved_define(
    alloc: Global,
    before: &LastNames,
    define: &Define,
) -> Result<Function, NameFault>
    ensures { Gives function_view result (function_of before.now (define_of define.now)) }
{
    let names = define_names(alloc, define)?;
    resolved_function(alloc, &names.registers, &names.variables, before, define)
}

/// The DEFINEs in their order, each after those before it.
fn resolved_defines(alloc: Global, defines: &[Define]) -> Result<Defined, NameFault>
    ensures functions { Gives (λ d. map function_view d.functions.items) result (functions_of []
        (map define_of defines.now)) }
    ensures names { IfOk result (λ d. d.names ≡ map (λ d. d.name) (map define_of defines.now)) }
{
    let mut functions = Vec::new(alloc);
    let mut names = LastNames::new(alloc);
    'defines: for define in defines {
        let function = match resolved_define(alloc, &names, define) {
            Ok(function) => function,
            Err(fault) => return Err(fault),
        };
        functions.push(function)?;
        names = names.with(alloc, define.name.bytes())?;
    }
    Ok(Defined { functions, names })
}

/// The body of an operation, whose registers before dst are these.
fn operation_body(
    alloc: Global,
    operands: Registers,
    header: &Header,
    functions: &LastNames,
    body: &Stmt,
) -> Result<Body, NameFault>
    ensures { Gives body_of result (body_over (length operands) (scope_of (operands ++
        result_register header.now ∷ []) (bracketed_in [] (statements_of body.now)) functions.now
        (statements_of body.now)) (statements_of body.now)) }
{
    let count = operands.count();
    let result = result_register(alloc, header)?;
    let given = operands.with(alloc, result)?;
    let mut marked = Names::new(alloc);
    mark_in(alloc, &[], body, &mut marked)?;
    let names = body_names(alloc, given, &marked, body)?;
    resolved_body(
        alloc,
        count,
        &names.registers,
        &names.variables,
        functions,
        body,
    )
}

/// An operation of an entry with this header, its names resolved: each is found where it stands, and
/// registers, number variables and DEFINEs go by their numbers. Else its first name, in the order of
/// the text, that is not known there or that means no bits, with its place.
///
/// Faults: `UnknownName` and `BareRegister` of the text; `Memory` where memory ran out, which says
/// nothing of the text.
pub fn resolve(alloc: Global, header: &Header, operation: &Operation) -> Result<Resolved, NameFault>
    ensures exact { Gives resolved_of result (resolve header.now (operation_of operation.now)) }
{
    let Defined { functions, names } = resolved_defines(alloc, operation.defines.as_slice())?;
    let operands = operand_registers(alloc, header)?;
    let result = operands.count();
    let body = match operation_body(alloc, operands, header, &names, &operation.body) {
        Ok(body) => body,
        Err(fault) => return Err(fault),
    };
    Ok(Resolved {
        functions: Items::from_vec(functions),
        body,
        result,
    })
}
