//! How a run ended.
ghost use Rattle.std.specs.Prelude.{◌≡◌};
ghost use Rattle.extract_call.specs.Numbers.{status_number};

/// How a run ended.
#[derive(Clone, Copy, Debug, PartialEq, Eq)]
pub enum Status {
    /// All was written, and it holds no refusal.
    Done,
    /// All was written, and it holds a refusal.
    Refused,
    /// The words have none of the forms.
    Usage,
    /// No memory was found.
    Memory,
    /// A page was not read.
    ReadFault,
    /// The sink failed.
    WriteFault,
}

impl Status {
    /// The exit status of the program, from 0 to 5.
    pub fn number(&self) -> u8
        ensures { result ≡ status_number self.now }
    {
        match self {
            Status::Done => 0,
            Status::Refused => 1,
            Status::Usage => 2,
            Status::Memory => 3,
            Status::ReadFault => 4,
            Status::WriteFault => 5,
        }
    }
}
