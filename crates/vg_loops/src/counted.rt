//! Loop kernels.

use vg_base::Items;
use vg_kernel::Kernel;

/// A loop: the kernel of a turn, run so many times, its pointers moved on after each turn.
pub struct Loop {
    pub kernel: Kernel,
    /// The parameter that says how many turns there are, by its number among the integers.
    pub times: u32,
    /// For each pointer the bytes by which a turn moves it on, 0 to 65,536.
    pub steps: Items<u32>,
}

/// Written out, so that the exits of an owner call it: a derived one would be proved anew at each.
impl Drop for Loop {
    fn drop(self) {
        let Loop {
            kernel: _,
            times: _,
            steps: _,
        } = self;
    }
}
