// The adapters over the real input, output and files. They tell no content; what std answers is trusted.
ghost use Rattle.std.specs.Prelude.{◌≡◌, ◌∷◌, [], ◌++◌, None, OnOk, OnErr};
ghost use Rattle.std.specs.Io.Buffered.{writer_buffer, writer_contents};
ghost use Rattle.std.specs.Io.KnownBytes as known;
ghost use Rattle.rate_io.specs.Causes.{HasCause};
ghost use Rattle.rate_io.specs.Content.{Appends, AppendsPart};
ghost use Rattle.rate_io.specs.Events.{write_event, flush_event};

use crate::{Call, Failed, FileCall, FileFault, FileHistory, Files, History, Sink, Source};
use std::alloc::Global;
use std::fs;
use std::io::{BufWriter, Read, Write};

/// A reader of std.
#[derive(Drop)]
pub struct ReaderSource<R: Read + Drop> {
    inner: R,
    history: History,
    faults: u64,
}

impl<R: Read + Drop> ReaderSource<R> {
    /// The source that this reader is.
    pub fn new(inner: R) -> Self
        ensures left { ⟦<ReaderSource<R> as Source>⟧.left result ≡ R.remaining inner }
        ensures history { ⟦<ReaderSource<R> as Source>⟧.history result ≡ [] }
        ensures faults { ⟦<ReaderSource<R> as Source>⟧.faults result ≡ 0 }
    {
        ReaderSource {
            inner,
            history: History::new(),
            faults: 0,
        }
    }
}

impl<R: Read + Drop> Source for ReaderSource<R> {
    ghost left = { λ s. R.remaining s.inner };

    ghost history = { λ s. s.history.events };

    ghost faults = { λ s. s.faults };

    fn read(&mut self, buf: &mut [u8]) -> Result<usize, Failed> {
        match self.inner.read(buf) {
            Ok(count) => {
                self.history = self.history.and(&Call::of_read(count, buf));
                Ok(count)
            }
            Err(_) => {
                self.faults = self.faults.saturating_add(1);
                self.history = self.history.and(&Call::ReadFailed);
                Err(Failed)
            }
        }
    }
}

/// A writer of std behind a buffer, in which what it took waits until that is full or flushed. A write that takes nothing of a piece
/// that isn't empty is a fault.
#[derive(Drop)]
pub struct WriterSink<W: Write + Drop> {
    pub(crate) inner: BufWriter<W>,
    history: History,
    faults: u64,
}

impl<W: Write + Drop> WriterSink<W> {
    /// The sink that this writer is.
    pub fn new(inner: BufWriter<W>) -> Self
        ensures history { ⟦<WriterSink<W> as Sink>⟧.history result ≡ [] }
        ensures faults { ⟦<WriterSink<W> as Sink>⟧.faults result ≡ 0 }
    {
        WriterSink {
            inner,
            history: History::new(),
            faults: 0,
        }
    }
}

impl<W: Write + Drop> Sink for WriterSink<W> {
    ghost written = { λ _. None };

    ghost history = { λ s. s.history.events };

    ghost faults = { λ s. s.faults };

    // Beside what each sink promises, the writer and its buffer took the piece, where the writer tells what it holds.
    fn write(&mut self, piece: &[u8]) -> Result<(), Failed>
        ensures bytes { OnOk result (Appends None None piece.now) }
        ensures part { OnErr result (AppendsPart None None piece.now) }
        ensures event { self.new.history.events ≡ self.old.history.events ++ write_event result piece.now ∷ [] }
        ensures cause { HasCause self.old.faults self.new.faults result }
        ensures inner { OnOk result (known.Appends (writer_contents W.contents self.old.inner)
            (writer_contents W.contents self.new.inner) piece.now) }
    {
        match self.inner.write_all(piece) {
            Ok(()) => {
                self.history = self.history.and(&Call::Wrote(piece));
                Ok(())
            }
            Err(_) => {
                self.faults = self.faults.saturating_add(1);
                self.history = self.history.and(&Call::WriteFailed(piece));
                Err(Failed)
            }
        }
    }

    // Beside what each sink promises, with Ok nothing waits in the buffer, and it and the writer lose nothing and take nothing else.
    fn flush(&mut self) -> Result<(), Failed>
        ensures bytes { ⟦<WriterSink<W> as Sink>⟧.written self.new ≡ ⟦<WriterSink<W> as Sink>⟧.written self.old }
        ensures event { self.new.history.events ≡ self.old.history.events ++ flush_event result ∷ [] }
        ensures cause { HasCause self.old.faults self.new.faults result }
        ensures empty { OnOk result (writer_buffer self.new.inner ≡ []) }
        ensures inner { known.Keeps (writer_contents W.contents self.old.inner) (writer_contents W.contents self.new.inner) }
    {
        match self.inner.flush() {
            Ok(()) => {
                self.history = self.history.and(&Call::Flushed);
                Ok(())
            }
            Err(_) => {
                self.faults = self.faults.saturating_add(1);
                self.history = self.history.and(&Call::FlushFailed);
                Err(Failed)
            }
        }
    }
}

/// The files of the system.
#[derive(Drop)]
pub struct HostFiles<R: std::rt::Files + Drop> {
    rt: R,
    history: FileHistory,
    faults: u64,
}

impl<R: std::rt::Files + Drop> HostFiles<R> {
    /// The files that this runtime reaches.
    pub fn new(rt: R) -> Self
        ensures history { ⟦<HostFiles<R> as Files>⟧.history result ≡ [] }
        ensures faults { ⟦<HostFiles<R> as Files>⟧.faults result ≡ 0 }
    {
        HostFiles {
            rt,
            history: FileHistory::new(),
            faults: 0,
        }
    }
}

impl<R: std::rt::Files + Drop> Files for HostFiles<R> {
    ghost content = { λ _ _. None };

    ghost history = { λ s. s.history.events };

    ghost faults = { λ s. s.faults };

    fn read(&mut self, alloc: Global, name: &str, limit: u64) -> Result<Vec<u8>, FileFault> {
        let Ok(file) = fs::open(&self.rt, name) else {
            let reads = &History::new().and(&Call::ReadFailed);
            self.history = self.history.and(&FileCall { name, reads });
            self.faults = self.faults.saturating_add(1);
            return Err(FileFault::Failed);
        };
        let mut source = ReaderSource::new(file);
        let read = crate::read_up_to(alloc, &mut source, limit);
        let reads = &source.history;
        self.history = self.history.and(&FileCall { name, reads });
        if let Err(FileFault::Failed) = read {
            self.faults = self.faults.saturating_add(1);
        }
        read
    }
}
