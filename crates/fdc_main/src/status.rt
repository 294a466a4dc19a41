// How the program ends.
ghost use Rattle.std.specs.Prelude.{◌≡◌};
ghost use Rattle.fdc_main.specs.Top.{status_number};

/// How the program ends.
#[derive(Clone, Copy, Debug, PartialEq, Eq)]
pub enum Status {
    Done,
    RunFault,
    Usage,
    Source,
    Input,
    ReadFault,
    WriteFault,
    Memory,
    Listing,
}

impl Status {
    /// The exit status of the program, from 0 to 8.
    pub fn code(self) -> u8
        ensures { result ≡ status_number self }
    {
        match self {
            Status::Done => 0,
            Status::RunFault => 1,
            Status::Usage => 2,
            Status::Source => 3,
            Status::Input => 4,
            Status::ReadFault => 5,
            Status::WriteFault => 6,
            Status::Memory => 7,
            Status::Listing => 8,
        }
    }
}
