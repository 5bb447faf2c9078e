//! How a run ends.

ghost use Rattle.std.specs.Prelude.{◌≡◌};
ghost use Rattle.codemod_cmd.specs.Statuses.{number_of};

/// How a run ends. The numbers are those of the program's exit status, from 0.
#[derive(Clone, Copy, Debug, PartialEq, Eq)]
pub enum Status {
    /// All rows and the summary are written.
    Done,
    /// They are written, some row is an error, and the words ask to be told so.
    HadErrors,
    /// The words are not those of the command.
    Usage,
    /// The script cannot be run.
    NoScript,
    /// There was not enough memory.
    NoMemory,
    /// The output failed.
    OutputFault,
}

impl Status {
    /// The exit status of the program.
    pub fn number(self) -> u8
        ensures { result ≡ number_of self }
    {
        match self {
            Status::Done => 0,
            Status::HadErrors => 1,
            Status::Usage => 2,
            Status::NoScript => 3,
            Status::NoMemory => 4,
            Status::OutputFault => 5,
        }
    }
}
