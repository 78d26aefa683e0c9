//! What a comparison of a kernel with a program ends with.

use vg_forms::Form;
use vg_paired::{Turned, Uneven};

/// The first thing in which a kernel and a program differ.
#[derive(Drop)]
pub enum Difference {
    /// The name, or the names, kinds, widths or order of the parameters.
    Params,
    /// A line of the program calls an instance of which a lane has no term. The `program` line has the
    /// number 1.
    Opaque {
        line: usize,
    },
    /// The bytes of one label are accessed another number of times.
    Access(Uneven),
    /// Two units of the kernel, by the numbers of their values, whose accesses the program turns round.
    Order(Turned),
    /// A store of the kernel, by the number of its unit, with the term of what it writes and the term of
    /// what the program writes there. A leaf is an argument, what a load reads, or a class of terms.
    Value {
        unit: usize,
        kernel: Form,
        program: Form,
    },
}

/// What a comparison of a kernel with a program ends with.
#[derive(Drop)]
pub enum Verdict {
    /// The program means the kernel.
    Same,
    /// They differ in this first; nothing is promised of what they mean.
    Differs(Difference),
}
