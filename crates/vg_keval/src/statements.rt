//! Statements as steps.

ghost use Rattle.std.specs.Prelude.{◌≡◌, ◌+◌, ◌≤◌, ◌<◌, length, map, vec_len, vec_capacity};
ghost use Rattle.vg_kernel.specs.Meaning.{after, run};
ghost use Rattle.vg_kernel.specs.Tree.{statement_of};
ghost use Rattle.vg_keval.specs.State.{state_of};
ghost use Rattle.vg_memory.specs.Outcome.{Leaves};

use crate::inputs::Inputs;
use crate::values::value;
use vg_bits::Outcome;
use vg_kernel::KStmt;
use vg_memory::store;

/// One statement. Takes no memory.
fn step(inputs: &Inputs, statement: &KStmt, memory: &mut [u8], numbers: &mut Vec<u64>) -> Outcome
    requires { vec_len numbers.old < vec_capacity numbers.old }
    ensures outcome { Leaves result (state_of memory.new numbers.new.items)
        (after inputs.now (statement_of statement.now) (state_of memory.old numbers.old.items)) }
    ensures size { length memory.new ≡ length memory.old }
    ensures one_more { vec_len numbers.new ≤ vec_len numbers.old + 1 }
    ensures in_place { vec_capacity numbers.new ≡ vec_capacity numbers.old }
{
    match statement {
        KStmt::Assign { value: expression } => match value(inputs, numbers, memory, expression) {
            Some(number) => {
                numbers.push_reserved(number);
                Outcome::Done
            }
            None => Outcome::Trap,
        },
        KStmt::Store {
            width,
            address,
            value: expression,
        } => match value(inputs, numbers, memory, expression) {
            Some(number) => store(memory, inputs.address(*address), width.size(), number),
            None => Outcome::Trap,
        },
    }
}

/// The statements in order, up to a trap. Takes no memory.
#[tactic(auto, unfolding(vg_kernel::specs::Meaning::run))]
pub(crate) fn run(
    inputs: &Inputs,
    statements: &[KStmt],
    memory: &mut [u8],
    numbers: &mut Vec<u64>,
) -> Outcome
    requires { vec_len numbers.old + length statements.now ≤ vec_capacity numbers.old }
    ensures outcome { Leaves result (state_of memory.new numbers.new.items)
        (run inputs.now (map statement_of statements.now) (state_of memory.old numbers.old.items)) }
    ensures size { length memory.new ≡ length memory.old }
    ensures in_place { vec_capacity numbers.new ≡ vec_capacity numbers.old }
{
    let mut left = statements;
    'statements: while let [statement, behind @ ..] = left {
        match step(inputs, statement, memory, numbers) {
            Outcome::Done => {}
            Outcome::Trap => return Outcome::Trap,
        }
        left = behind;
    }
    Outcome::Done
}
