ghost use Rattle.std.specs.Prelude.{◌≡◌};
ghost use Rattle.sq_plan.specs.Status.{unless_screen_failed, code_of};

/// How a run ended.
#[derive(Clone, Copy, Debug, PartialEq, Eq)]
pub enum Status {
    Done,
    Refused,
    Usage,
    ReadFault,
    WriteFault,
    Memory,
    Missing,
}

impl Status {
    pub fn code(self) -> u8
        ensures { result ≡ code_of self }
    {
        self as u8
    }

    /// The status where the screen failed.
    pub fn unless_screen_failed(self) -> Status
        ensures { result ≡ unless_screen_failed self }
    {
        match self {
            Status::Done | Status::Refused | Status::Usage => Status::WriteFault,
            Status::ReadFault | Status::WriteFault | Status::Memory | Status::Missing => self,
        }
    }
}
