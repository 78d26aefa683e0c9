//! Which operations are accepted, and what they are when they are written out.
//!
//! An operation is looked at in the order in which it runs, once for each immediate: `vg_interval`'s `specs/Judge.antt`
//! says what is known of its expressions, `specs/Walk.antt` of its statements, and `specs/Acceptance.antt` what is
//! refused first. The same walk makes the script of an instance, and [`scripts_mean_their_texts`] says that the script
//! does what the text means; [`accepted_are_written`] that judging alone accepts just what has a script.
//!
//! An `AllocError` is want of memory; nothing else is.
#![tactic(auto)]

mod accepting;
mod arms;
mod assigning;
mod beginning;
mod calling;
pub mod checked;
mod checking;
mod code_walk;
mod decision;
mod estimates;
mod estimating;
mod folding;
mod frames;
mod giving;
mod goal;
mod instance_walk;
mod joining;
mod judging;
mod law;
mod nodes;
mod selector;
mod spots;
mod turns;
pub mod unrolling;
mod uses;
mod walk_context;
mod walk_state;
mod ways;

pub use checked::Checked;
pub use checking::check;
pub use law::{accepted_are_written, scripts_mean_their_texts};
pub use vg_interval::RangeFault;
