//! What the vectoriser speaks of: the lanes of instructions, what their leaves read, and the
//! descriptions of instances that packs may call; kernels as numbered values, their dependences,
//! packs of their units, and orders of packs and units.
//!
//! `specs/Registers.antt` says what a leaf reads of the registers that an instruction is given,
//! `specs/Leaves.antt` which leaves a value can stand at, `specs/Description.antt` what a description
//! promises, `specs/RunUnits.antt` what the units of a kernel do, `specs/Depends.antt` which of them
//! depend on which, `specs/Fits.antt` which lanes compute which values, and `specs/Nodes.antt` which
//! orders of packs and units are legal.
#![tactic(auto)]

pub mod access;
mod dep_list;
pub mod description;
pub mod lane;
mod lanes;
mod law;
pub mod leaf;
pub mod match_table;
pub mod operand;
pub mod order;
pub mod pack;
mod plan;
pub mod ssa;
pub mod ssa_unit;
pub mod wanted;

pub use access::Access;
pub use dep_list::DepList;
pub use description::Description;
pub use lane::Lane;
pub use lanes::Lanes;
pub use law::{
    leaves_read_registers, replaced_leaves_keep_numbers, turned_terms_keep_numbers,
    without_cuts_matches_are_whole,
};
pub use leaf::Leaf;
pub use match_table::{Bound, Match, MatchTable};
pub use operand::{Operand, Slot};
pub use order::{Node, Order};
pub use pack::Pack;
pub use plan::Plan;
pub use ssa::{Ssa, SsaParam, SsaParamKind};
pub use ssa_unit::{Operands, Operator, SsaUnit};
pub use wanted::Wanted;
