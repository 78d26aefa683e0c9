//! The lanes of an instance.

use vg_terms::Term;

/// What an instance computes in one lane of its result.
#[derive(Drop)]
pub enum Lane {
    /// This term, whose leaves are bits of the parameters.
    Tree(Term),
    /// A term of more than 1,024 nodes.
    Big,
    /// No term: a slice or a shift of the instance depends on data.
    Dynamic,
}
