ghost use Rattle.std.specs.Prelude.{ℕ, ◌≡◌, ◌≤◌, ◌<◌, IfOk, OnOk, Err, length, true};
ghost use Rattle.std.specs.Io.KnownBytes.{IsAtEnd};
ghost use Rattle.rate_io.specs.Causes.{Rose};
ghost use Rattle.rate_io.specs.Content.{Told};
ghost use Rattle.rate_io.specs.Events.{Grew, ReadWhole};
ghost use Rattle.rate_io.specs.declared.files.FileFault.TheVariants.{TooLong};

use crate::{FileFault, Source};
use std::alloc::Global;

/// All bytes that a source has left, where they are at most `limit`. It stops at the first byte past the limit.
pub fn read_up_to<S: Source>(
    alloc: Global,
    source: &mut S,
    limit: u64,
) -> Result<Vec<u8>, FileFault>
    ensures whole { IfOk result (λ v. Told (S.left source.old) (λ bytes. v.items ≡ bytes)) }
    ensures end { OnOk result (IsAtEnd (S.left source.new)) }
    ensures reads { Grew (S.history source.old) (S.history source.new) (ReadWhole (λ v. v.items) limit result) }
    ensures longer { (read : ℕ) → result ≡ Err (TooLong read)
        → Told (S.left source.old) (λ bytes. read ≤ length bytes) }
    ensures later { S.faults source.old ≤ S.faults source.new }
    ensures failed { result ≡ Err FileFault.Failed → Rose (S.faults source.old) (S.faults source.new) }
{
    let mut bytes = Vec::new(alloc);
    let mut buf = [0u8; 16384];
    'turns: while bytes.len() as u64 <= limit {
        let Ok(count) = source.read(&mut buf) else {
            return Err(FileFault::Failed);
        };
        if count == 0 {
            return Ok(bytes);
        }
        if bytes.extend_from_slice(&buf[..count]).is_err() {
            return Err(FileFault::OutOfMemory);
        }
    }
    Err(FileFault::TooLong {
        read: bytes.len() as u64,
    })
}
