//! The kernel of so many turns.

ghost use Rattle.std.specs.Prelude.{◌≡◌, ◌++◌, ◌<◌, ◌≤◌, ◌^◌, length, map, IfOk, OnOk};
ghost use Rattle.vg_kernel.specs.Tree.{tree_of, statement_of};
ghost use Rattle.vg_kernel.specs.WellFormed.{IsWellFormed};
ghost use Rattle.vg_loop_laws.specs.Unrolled.{moved_statement, names_given, unrolled};
ghost use Rattle.vg_loop_laws.specs.Limits.{KeepsLimits};
ghost use Rattle.vg_loops.specs.MayMove.{MayAllMove};
ghost use Rattle.vg_loops.specs.View.{loop_of};

use crate::copying::copied_params;
use crate::counted::Loop;
use crate::moving::moved_statement;
use std::alloc::{AllocError, Global};
use vg_base::Items;
use vg_kernel::{KStmt, Kernel};

/// How many names statements give.
fn names_given(statements: &[KStmt]) -> u32
    requires { length statements.now ≤ 4096 }
    ensures { result ≡ names_given (map statement_of statements.now) }
{
    let mut names = 0;
    let mut rest = statements;
    'statements: while let [statement, behind @ ..] = rest {
        if let KStmt::Assign { .. } = statement {
            names += 1;
        }
        rest = behind;
    }
    names
}

/// Appends the statements of the turn after so many, which gave so many names.
fn put_turn(
    alloc: Global,
    to: &mut Vec<KStmt>,
    steps: &[u32],
    turn: u32,
    names: u32,
    statements: &[KStmt],
) -> Result<(), AllocError>
    requires { MayAllMove steps.now turn names (map statement_of statements.now) }
    ensures { OnOk result (map statement_of to.new.items ≡ map statement_of to.old.items
        ++ map (moved_statement steps.now turn names) (map statement_of statements.now)) }
{
    let mut rest = statements;
    'statements: while let [statement, behind @ ..] = rest {
        let statement = moved_statement(alloc, steps, turn, names, statement)?;
        to.push(statement)?;
        rest = behind;
    }
    Ok(())
}

/// The statements of so many turns.
fn unrolled_statements(alloc: Global, source: &Loop, turns: u32) -> Result<Vec<KStmt>, AllocError>
    requires well_formed { IsWellFormed (tree_of source.now.kernel) }
    requires limits { KeepsLimits (loop_of source.now) turns }
    ensures { IfOk result
        (λ ss. map statement_of ss.items ≡ (unrolled (loop_of source.now) turns).statements) }
{
    let statements = source.kernel.statements.as_slice();
    let steps = source.steps.as_slice();
    let names = names_given(statements);
    let mut unrolled = Vec::new(alloc);
    let mut turn = 0;
    'turns: while turn < turns {
        put_turn(alloc, &mut unrolled, steps, turn, turn * names, statements)?;
        turn += 1;
    }
    Ok(unrolled)
}

/// The kernel of so many turns of a loop: its statements so many times, one turn after the other,
/// each with its offsets moved on by the turns before it and with names of its own. It is well
/// formed. Fails for want of memory alone.
pub fn unroll(alloc: Global, source: &Loop, turns: u32) -> Result<Kernel, AllocError>
    requires well_formed { IsWellFormed (tree_of source.now.kernel) }
    requires limits { KeepsLimits (loop_of source.now) turns }
    ensures unrolled { IfOk result (λ k. tree_of k ≡ unrolled (loop_of source.now) turns) }
    ensures well_formed { IfOk result (λ k. IsWellFormed (tree_of k)) }
{
    let statements = unrolled_statements(alloc, source, turns)?;
    let params = copied_params(alloc, source.kernel.params.as_slice())?;
    let name = source.kernel.name.copy(alloc)?;
    Ok(Kernel {
        name,
        params: Items::from_vec(params),
        statements: Items::from_vec(statements),
    })
}
