//! Which units of a kernel are planned.

/// A kernel's own units, or units that are made of them.
#[derive(Clone, Copy)]
pub enum Rewriting {
    Own,
    /// Each free use of a load has a load of its own.
    Repeated,
    /// Each number in the widths that are asked of it.
    Narrowed,
    /// The narrowed ones, repeated.
    NarrowedRepeated,
}
