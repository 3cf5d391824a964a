use crate::status::Status;
use base_bytes::NoMemory;

/// How a run ended that no device stopped, nor memory that ran out.
#[derive(Clone, Copy)]
pub enum Ending {
    Done,
    PolicyRefused,
    Usage,
    ScriptRefused,
    TooLarge,
    JournalRefused,
}

impl Ending {
    ghost use Rattle.std.specs.Prelude.{◌≡◌};
    ghost use Rattle.aranyad.specs.Ending.{ending_status};

    pub fn status(self) -> Status
        ensures { result ≡ ending_status self }
    {
        match self {
            Ending::Done => Status::Done,
            Ending::PolicyRefused => Status::PolicyRefused,
            Ending::Usage => Status::Usage,
            Ending::ScriptRefused => Status::ScriptRefused,
            Ending::TooLarge => Status::TooLarge,
            Ending::JournalRefused => Status::JournalRefused,
        }
    }
}

/// What stopped a run before its end.
#[derive(Clone, Copy)]
pub enum Halt {
    Read,
    Write,
    Disk,
    Seal,
    Memory,
}

impl Halt {
    ghost use Rattle.std.specs.Prelude.{◌≡◌};
    ghost use Rattle.aranyad.specs.Ending.{halt_status};

    pub fn status(self) -> Status
        ensures { result ≡ halt_status self }
    {
        match self {
            Halt::Read => Status::ReadFault,
            Halt::Write => Status::WriteFault,
            Halt::Disk => Status::DiskFault,
            Halt::Seal => Status::SealFault,
            Halt::Memory => Status::NoMemory,
        }
    }
}

impl From<NoMemory> for Halt {
    ghost use Rattle.std.specs.Prelude.{◌≡◌};
    ghost use Rattle.aranyad.specs.declared.ending.Halt.TheVariants.{Memory};

    ghost from_gives = { λ _ e. e ≡ Memory };

    fn from(_error: NoMemory) -> Halt {
        Halt::Memory
    }
}
