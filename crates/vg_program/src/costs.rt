//! The cost of a program.

ghost use Rattle.std.specs.Prelude.{◌≡◌, ◌<◌, ◌≤◌, ◌-◌, ◌^◌, min, sum_by, length};
ghost use Rattle.vg_program.specs.Cost.{line_cost, cost_of};

use crate::line::Line;
use crate::program::Program;

fn line_cost(line: &Line) -> u64
    ensures exact { result ≡ line_cost line.now }
    ensures small { result < 2 ^ 32 }
{
    match line {
        Line::Load { .. } => 1,
        Line::Store { .. } => 1,
        Line::Two { .. } => 1,
        Line::Shift { .. } => 1,
        Line::Resize { .. } => 1,
        Line::Compare { .. } => 1,
        Line::Select { .. } => 1,
        Line::VectorLoad { .. } => 1,
        Line::VectorStore { .. } => 1,
        Line::Constant { .. } => 1,
        Line::Insert { .. } => 1,
        Line::Extract { .. } => 1,
        Line::Call { cost, .. } => *cost as u64,
    }
}

/// The sum of the costs of the lines, or the greatest number of 64 bits where it is more.
fn lines_cost(lines: &[Line]) -> u64
    ensures sum { result ≡ min (sum_by line_cost lines.now) (2 ^ 64 - 1) }
    // 4194304 lines cost less.
    ensures exact { length lines.now ≤ 4194304 → result ≡ sum_by line_cost lines.now }
{
    let mut total: u64 = 0;
    'lines: for line in lines {
        total = total.saturating_add(line_cost(line));
    }
    total
}

/// The sum of the costs of lines that are few.
pub(crate) fn cost_of_few(lines: &[Line]) -> u64
    requires { length lines.now ≤ 4194304 }
    ensures { result ≡ sum_by line_cost lines.now }
{
    lines_cost(lines)
}

/// The cost of a program, which is the sum of the costs of its lines: of a call what its
/// instruction costs, of any other line 1. It is the greatest number of 64 bits where the sum is
/// more, which it is for no valid program. Takes no memory.
pub fn cost(program: &Program) -> u64
    ensures { result ≡ min (cost_of program.now) (2 ^ 64 - 1) }
{
    lines_cost(program.lines.as_slice())
}
