//! What stands before the statements of a kernel or a loop.

use crate::parameter::KParam;
use vg_base::{Items, Name};

/// The name and the parameters of a kernel or a loop.
#[derive(Drop)]
pub struct Head {
    pub name: Name,
    /// At most 16, with names that differ.
    pub params: Items<KParam>,
}
