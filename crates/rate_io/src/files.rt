ghost use Rattle.std.specs.Prelude.{◌≡◌, ◌≤◌, ℕ, List, Option, length, IfOk, Err};
ghost use Rattle.rate_io.specs.Causes.{Rose};
ghost use Rattle.rate_io.specs.Content.{Told};
ghost use Rattle.rate_io.specs.Events.{FileEvent, GrewByFile, ReadWhole};
ghost use Rattle.rate_io.specs.declared.files.FileFault.TheVariants.{TooLong};

use std::alloc::Global;
use thiserror::Error;

/// Why a file, or the bytes that a source has left, wasn't read whole.
#[derive(Clone, Copy, Debug, PartialEq, Eq, Error)]
pub enum FileFault {
    /// It couldn't be read, and the count of faults rose.
    #[error("read failed")]
    Failed,
    /// It has more bytes than the limit; `read` bytes were seen.
    #[error("too long: {read} bytes were seen")]
    TooLong { read: u64 },
    /// There was no memory for its bytes.
    #[error("out of memory")]
    OutOfMemory,
}

/// Files by name.
pub trait Files {
    /// The content of each name, where it is told.
    ghost content: { Self → List ℕ → Option (List ℕ) };

    /// Its calls, in order: the name that was asked for, and the reads of its content.
    ghost history: { Self → List FileEvent };

    /// How often it has failed. The count stops at the last value of a counter of 64 bits.
    ghost faults: { Self → ℕ };

    /// The content of a file of at most `limit` bytes.
    fn read(&mut self, alloc: Global, name: &str, limit: u64) -> Result<Vec<u8>, FileFault>
        ensures same { content self.new ≡ content self.old }
        ensures bytes { IfOk result (λ v. Told (content self.old name.now) (λ bytes. v.items ≡ bytes)) }
        ensures longer { (read : ℕ) → result ≡ Err (TooLong read)
            → Told (content self.old name.now) (λ bytes. read ≤ length bytes) }
        ensures event { GrewByFile (history self.old) (history self.new) name.now (ReadWhole (λ v. v.items) limit result) }
        ensures later { faults self.old ≤ faults self.new }
        ensures failed { result ≡ Err FileFault.Failed → Rose (faults self.old) (faults self.new) };
}
