/// How a run of the program ended.
#[derive(Clone, Copy, Debug, PartialEq, Eq)]
pub enum Status {
    /// The script was run to its last line.
    Done,
    /// The document is no policy that can run.
    PolicyRefused,
    /// The words are no words of a mode.
    Usage,
    /// A line of the script is refused.
    ScriptRefused,
    /// A file could not be read.
    ReadFault,
    /// The sink failed.
    WriteFault,
    /// A disk failed.
    DiskFault,
    NoMemory,
    /// A file has more bytes than its limit.
    TooLarge,
    /// What a disk reads is no journal of this policy.
    JournalRefused,
    /// The envelope failed.
    SealFault,
}

impl Status {
    ghost use Rattle.std.specs.Prelude.{◌≡◌};
    ghost use Rattle.aranyad.specs.Status.{number_of};

    /// The exit status of the program.
    pub fn number(&self) -> u8
        ensures { result ≡ number_of self.now }
    {
        match self {
            Status::Done => 0,
            Status::PolicyRefused => 1,
            Status::Usage => 2,
            Status::ScriptRefused => 3,
            Status::ReadFault => 4,
            Status::WriteFault => 5,
            Status::DiskFault => 6,
            Status::NoMemory => 7,
            Status::TooLarge => 8,
            Status::JournalRefused => 9,
            Status::SealFault => 10,
        }
    }
}
