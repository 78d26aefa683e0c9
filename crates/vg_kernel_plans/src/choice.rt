//! Which packs are tried.

/// Which packs are tried when plans grow, beside those that produce what packs take. Neither, where
/// plans are of store groups and producers alone.
#[derive(Clone, Copy)]
pub struct Choice {
    /// The load groups that have some of what a pack takes.
    pub fed: bool,
    /// Of the store groups only those that stand a multiple of their size after the first store of
    /// their run.
    pub aligned: bool,
}
