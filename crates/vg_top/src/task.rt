//! What is asked for of a kernel.

/// What is to be written of a kernel.
#[derive(Clone, Copy)]
pub enum Task {
    /// The text of its program.
    Program,
    /// The text of its guarded program.
    Guarded,
    /// The lines on its chosen plan.
    Plan,
}
