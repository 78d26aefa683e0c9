//! How a run ends.

ghost use Rattle.std.specs.Prelude.{◌≡◌};
ghost use Rattle.vg_top.specs.Status.{code_of};

/// How a run ended. Each has its number, which is the exit status of the program.
#[derive(Clone, Copy)]
pub enum Status {
    /// The answer was written.
    Ok,
    /// The words are no request.
    Usage,
    /// The instruction file has a fault.
    InstructionsRefused,
    /// The kernel has a fault.
    KernelRefused,
    /// The program file has a fault.
    ProgramRefused,
    /// A file is not there.
    InputAbsent,
    /// A file could not be read.
    ReadFault,
    /// The answer could not be written, or only a part of it.
    WriteFault,
    /// The words do not bind the parameters.
    BindingsRefused,
    /// The run made an access outside the memory.
    Trap,
    /// A file is larger than its limit.
    TooLarge,
    /// There was no memory, or a bound of the code was reached (docs/limits.md).
    NoMemory,
    /// The program differs from the kernel.
    Differs,
}

impl Status {
    /// The exit status: 0 for `Ok`, and 2 to 13 for the others in their order.
    pub fn code(&self) -> u8
        ensures { result ≡ code_of self.now }
    {
        match self {
            Status::Ok => 0,
            Status::Usage => 2,
            Status::InstructionsRefused => 3,
            Status::KernelRefused => 4,
            Status::ProgramRefused => 5,
            Status::InputAbsent => 6,
            Status::ReadFault => 7,
            Status::WriteFault => 8,
            Status::BindingsRefused => 9,
            Status::Trap => 10,
            Status::TooLarge => 11,
            Status::NoMemory => 12,
            Status::Differs => 13,
        }
    }
}
