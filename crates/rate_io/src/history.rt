// Histories of calls. They exist only in proofs: they take no memory, and their methods do nothing at run time.
ghost use Rattle.std.specs.Prelude.{◌≡◌, List, [], ◌∷◌, ◌++◌};
ghost use Rattle.std.specs.Borrow.{ftrue};
ghost use Rattle.rate_io.specs.Events.{Event, FileEvent};
ghost use Rattle.rate_io.specs.Stored.{events_code, files_code};

use rate_types::Seconds;
use std::marker::Model;

/// What a source, a sink or a link did, call by call.
#[derive(Drop)]
pub struct History {
    pub ghost events: { List Event } by { events_code },
}

impl Model for History {
    ghost also_owns = { λ _. ftrue };
}

/// One call of a source, of a sink or of a link.
#[derive(Clone, Copy, Drop)]
pub enum Call<'a> {
    /// A read handed out these bytes.
    Gave(&'a [u8]),
    /// A read answered the end.
    Ended,
    /// A read failed.
    ReadFailed,
    /// This piece was written.
    Wrote(&'a [u8]),
    /// The write of this piece failed.
    WriteFailed(&'a [u8]),
    /// What was written before was flushed.
    Flushed,
    /// A flush failed.
    FlushFailed,
    /// The clock told this moment.
    Told(Seconds),
}

impl<'a> Call<'a> {
    ghost use Rattle.std.specs.Prelude.{ℕ, ◌≤◌, ◌≡◌, length, Ok};
    ghost use Rattle.rate_io.specs.Calls.{event_of};
    ghost use Rattle.rate_io.specs.Events.{read_event};

    /// A read that put so many bytes into this room.
    pub fn of_read(count: usize, room: &'a [u8]) -> Call<'a>
        requires { count ≤ length room.now }
        ensures { event_of result ≡ read_event {E = ℕ} (Ok count) room.now }
    {
        if count == 0 && !room.is_empty() {
            Call::Ended
        } else {
            Call::Gave(&room[..count])
        }
    }
}

impl History {
    ghost use Rattle.rate_io.specs.Calls.{event_of};

    /// No call.
    pub fn new() -> History
        ensures { result.events ≡ [] }
    {
        History {}
    }

    /// The same calls and one more behind them.
    pub fn and(&self, _call: &Call<'_>) -> History
        ensures { result.events ≡ self.now.events ++ event_of _call.now ∷ [] }
    {
        History {}
    }
}

/// What a set of files did, call by call.
#[derive(Drop)]
pub struct FileHistory {
    pub ghost events: { List FileEvent } by { files_code },
}

impl Model for FileHistory {
    ghost also_owns = { λ _. ftrue };
}

/// One call for a file: its name, and the reads of its content.
#[derive(Clone, Copy, Drop)]
pub struct FileCall<'a> {
    pub name: &'a str,
    pub reads: &'a History,
}

impl FileHistory {
    /// No call.
    pub fn new() -> FileHistory
        ensures { result.events ≡ [] }
    {
        FileHistory {}
    }

    /// The same calls and one more behind them.
    pub fn and(&self, _call: &FileCall<'_>) -> FileHistory
        ensures { result.events ≡ self.now.events ++ (_call.now.name.now, _call.now.reads.now.events) ∷ [] }
    {
        FileHistory {}
    }
}
