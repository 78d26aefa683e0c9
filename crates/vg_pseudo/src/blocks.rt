//! Statements that were read.

ghost use Rattle.std.specs.Prelude.{◌≡◌, map, max, Ok};
ghost use Rattle.vg_pseudo.specs.Reads.{Gives};
ghost use Rattle.vg_pseudo.specs.Tree.{expression_of, statements_of, stop, repeat, last};
ghost use Rattle.vg_pseudo.specs.Views.{block_of};
ghost use Rattle.vg_pseudo.specs.Statements.{followed_by, chained, nothing};

use crate::fault::PseudoFault;
use crate::parts::Part;
use crate::statement::Stmt;
use std::alloc::Global;
use vg_base::Name;
use vg_text::Place;
use vg_text::lexer::Word;

/// Statements that were read.
#[derive(Drop)]
pub(crate) struct Block {
    pub(crate) statements: Stmt,
    /// The greatest depth of the DEFINEs that they call, where a DEFINE is being read, else 0.
    pub(crate) calls: u8,
}

/// The end of a list.
pub(crate) fn nothing() -> Block
    ensures { block_of result ≡ nothing }
{
    Block {
        statements: Stmt::End,
        calls: 0,
    }
}

/// One statement, way or arm before others.
fn followed_by(block: Block, behind: Block) -> Block
    ensures { block_of result ≡ followed_by (block_of block) (block_of behind) }
{
    Block {
        statements: block.statements.followed(behind.statements),
        calls: block.calls.max(behind.calls),
    }
}

/// One after the other, with `last` after the last.
pub(crate) fn chained(blocks: Vec<Block>, last: Block) -> Block
    ensures { block_of result ≡ chained (map block_of blocks.items) (block_of last) }
{
    let mut left = blocks;
    let mut behind = last;
    'chain: while let Some(block) = left.pop() {
        behind = followed_by(block, behind);
    }
    behind
}

/// ELSE and its statements.
pub(crate) fn else_block(alloc: Global, inside: Block) -> Result<Block, PseudoFault>
    ensures node { Gives block_of result (Ok (record {
      statements = last (block_of
          inside).statements;
      calls = inside.calls;
    })) }
{
    Ok(Block {
        statements: Stmt::Else {
            body: Box::new(alloc, inside.statements)?,
        },
        calls: inside.calls,
    })
}

/// `FOR variable := first to last body ENDFOR` at a place.
pub(crate) fn for_block(
    alloc: Global,
    place: Place,
    variable: Word<'_>,
    first: Part,
    last: Part,
    inside: Block,
) -> Result<Block, PseudoFault>
    ensures node { Gives block_of result (Ok (record {
      statements = repeat place
          variable.entry.bytes.now (expression_of first.expression) (expression_of last.expression)
          (block_of inside).statements stop;
      calls = max (max first.calls last.calls) inside.calls;
    })) }
{
    Ok(Block {
        statements: Stmt::For {
            place,
            variable: Name::new(alloc, variable.bytes)?,
            first: first.expression,
            last: last.expression,
            body: Box::new(alloc, inside.statements)?,
            rest: Box::new(alloc, Stmt::End)?,
        },
        calls: first.calls.max(last.calls).max(inside.calls),
    })
}
