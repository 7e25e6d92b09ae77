ghost use Rattle.std.specs.Prelude.{◌≡◌};
ghost use Rattle.cli_exits.specs.Reports as reports;

use rate_types::{At, Refused};

/// How the program ended.
#[derive(Drop)]
pub enum Exit {
    /// The output was written whole and flushed.
    Done,
    /// The words aren't a command.
    Usage,
    /// A configuration file is refused: its index, from 0, the place and the number of its first fault.
    ConfigRefused(At),
    /// A file or the input has more than 67,108,864 bytes, a printed run more than 1,073,741,824, or the input or a stream has more than
    /// 1,048,576 lines.
    TooLong,
    /// The input couldn't be read.
    ReadFault,
    /// The output couldn't be written, or not flushed.
    WriteFault,
    /// The file of this index, from 0, couldn't be read.
    FileFault(u64),
    /// There was no memory. Nothing was written, but for the port by `serve`.
    OutOfMemory,
    /// The port couldn't be had, or a connection couldn't be accepted.
    ListenFault,
    /// A settings file is refused: the place and the number of its first fault.
    SettingsRefused(Refused),
}

impl Exit {
    /// The exit status of the program.
    pub fn status(&self) -> u8
        ensures { result ≡ reports.status_of self.now }
    {
        match self {
            Exit::Done => 0,
            Exit::Usage => 1,
            Exit::ConfigRefused(_) => 2,
            Exit::TooLong => 3,
            Exit::ReadFault => 4,
            Exit::WriteFault => 5,
            Exit::FileFault(_) => 6,
            Exit::OutOfMemory => 7,
            Exit::ListenFault => 8,
            Exit::SettingsRefused(_) => 9,
        }
    }
}
