//! How a run ends.

/// How a run ends: at its end, or at an access outside the memory.
#[derive(Clone, Copy)]
pub enum Outcome {
    Done,
    Trap,
}
