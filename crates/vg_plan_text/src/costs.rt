//! The costs that stand beside each other.

/// What a plan costs, beside the plain plan and the scalar program of the same kernel.
#[derive(Clone, Copy)]
pub struct Costs {
    pub plan: u64,
    pub plain: u64,
    /// A line for each load, operation and store of the kernel.
    pub scalar: u64,
}
