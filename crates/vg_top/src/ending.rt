//! How the work on a request ended, with what the message tells of it.

ghost use Rattle.std.specs.Prelude.{◌≡◌};
ghost use Rattle.vg_top.specs.Ending.{status_of};

use crate::status::Status;
use vg_base::Items;
use vg_catalog::CatalogFault;
use vg_kernel::KernelFault;
use vg_program::ProgramFault;

/// Which file of a request, by its number among them, from 1.
#[derive(Clone, Copy)]
pub struct FileNumber(pub u8);

/// Why a request has no answer.
#[derive(Drop)]
pub enum Ending {
    /// The words are no request.
    Usage,
    /// The instruction file, which has this number, has this fault.
    Instructions(FileNumber, CatalogFault),
    /// The kernel file, which has this number, has this fault.
    Kernel(FileNumber, KernelFault),
    /// The program file, which has this number, has this fault.
    Program(FileNumber, ProgramFault),
    /// The file is not there.
    Absent(FileNumber),
    /// The file could not be read.
    ReadFault(FileNumber),
    /// The file has more bytes than its limit.
    TooLarge(FileNumber),
    /// The words do not bind the parameters: each once, in its range, and nothing else.
    Bindings,
    /// The run made an access outside the memory.
    Trap,
    /// The answer could not be written.
    WriteFault,
    /// There was no memory, or a bound of the code was reached (docs/limits.md).
    Memory,
    /// The program differs from the kernel: the text of their first difference.
    Differs(Items<u8>),
}

impl Ending {
    /// The status that it is told by.
    pub fn status(&self) -> Status
        ensures { result ≡ status_of self.now }
    {
        match self {
            Ending::Usage => Status::Usage,
            Ending::Instructions(..) => Status::InstructionsRefused,
            Ending::Kernel(..) => Status::KernelRefused,
            Ending::Program(..) => Status::ProgramRefused,
            Ending::Absent(_) => Status::InputAbsent,
            Ending::ReadFault(_) => Status::ReadFault,
            Ending::TooLarge(_) => Status::TooLarge,
            Ending::Bindings => Status::BindingsRefused,
            Ending::Trap => Status::Trap,
            Ending::WriteFault => Status::WriteFault,
            Ending::Memory => Status::NoMemory,
            Ending::Differs(_) => Status::Differs,
        }
    }
}
