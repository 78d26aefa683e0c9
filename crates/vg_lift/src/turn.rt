//! The ways of an IF and the arms of a CASE that are still to be joined.

use vg_script::Script;

/// A way that is taken where the term of a node, of one bit, is 1.
#[derive(Clone, Copy)]
pub struct Turn<'a> {
    pub(crate) node: usize,
    pub(crate) body: &'a Script,
}
