//! How a call of the program ended.
ghost use Rattle.std.specs.Prelude.{◌≡◌};
ghost use Rattle.grid_job.specs.Status.{code as code_of};

/// How a call ended.
#[derive(Clone, Copy, PartialEq, Eq, Debug)]
pub enum Status {
    /// All was read and all was written.
    Done,
    /// The words are none of the forms that the program knows.
    Usage,
    /// The input has a fault, and the line that says so was written.
    Refused,
    /// A read failed.
    ReadFault,
    /// A write failed.
    WriteFault,
    /// The allocator refused.
    NoMemory,
    /// A certificate was read that does not pass.
    No,
}

impl Status {
    /// The exit status of the program, from 0 to 6.
    pub fn code(&self) -> u8
        ensures { result ≡ code_of self.now }
    {
        match self {
            Status::Done => 0,
            Status::Usage => 1,
            Status::Refused => 2,
            Status::ReadFault => 3,
            Status::WriteFault => 4,
            Status::NoMemory => 5,
            Status::No => 6,
        }
    }
}
