ghost use Rattle.std.specs.Prelude.{◌≡◌};
ghost use Rattle.run_status.specs.Code.{code_of, status_of};

use crate::printout::PrintError;

/// How a command ends.
#[derive(Clone, Copy, Debug, PartialEq, Eq)]
pub enum Status {
    /// All was carried out, and the whole text was written.
    Ok,
    /// The words of the command line aren't a command.
    Usage,
    /// A line of the script is outside its grammar or a limit.
    BadScript,
    /// The source failed.
    ReadFault,
    /// The sink failed.
    WriteFault,
    /// The disk failed while it was formatted.
    DiskFault,
    /// Memory ran out.
    OutOfMemory,
    /// The disk is under the key of a view already.
    KeyTaken,
    /// A line of a text that is judged tells what can't come next.
    Illegal,
    /// A line of a text that is judged is outside its form or a limit.
    BadText,
}

impl Status {
    /// The exit status of a program that ends so.
    pub fn code(self) -> u8
        ensures { result ≡ code_of self }
    {
        match self {
            Status::Ok => 0,
            Status::Usage => 2,
            Status::BadScript => 3,
            Status::ReadFault => 4,
            Status::WriteFault => 5,
            Status::DiskFault => 6,
            Status::OutOfMemory => 7,
            Status::KeyTaken => 9,
            Status::Illegal => 11,
            Status::BadText => 12,
        }
    }
}

/// How a command ends whose text isn't printed.
pub fn status_of(error: PrintError) -> Status
    ensures { result ≡ status_of error }
{
    match error {
        PrintError::WriteFault => Status::WriteFault,
        PrintError::OutOfMemory => Status::OutOfMemory,
    }
}
