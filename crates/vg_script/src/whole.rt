//! Instances: operations written out for one immediate.

use crate::script::Script;
use vg_base::Items;

/// An operation written out for one immediate.
#[derive(Drop)]
pub struct Whole {
    /// The widths of the registers in bits, by their numbers: the parameters, then the immediate
    /// where there is one, then dst, then the others.
    pub widths: Items<u128>,
    /// How many of the registers are parameters, the immediate counted.
    pub parameters: usize,
    /// How many variables there are.
    pub variables: usize,
    /// The number of dst among the registers.
    pub result: usize,
    pub script: Script,
    /// Whether a slice or a shift depends on data.
    pub is_dynamic: bool,
    /// How many nodes the script has, as its maker counted them.
    pub nodes: u64,
}
