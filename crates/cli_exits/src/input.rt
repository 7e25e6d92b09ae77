// From a source to the bytes of an input.
ghost use Rattle.std.specs.Prelude.{◌≡◌, ◌≤◌, ◌<◌, IfOk, IfErr, OnOk, length, true, false};
ghost use Rattle.std.specs.Io.KnownBytes.{IsAtEnd};
ghost use Rattle.rate_types.specs.declared.limits.TheConstants.{MOST_LINES};
ghost use Rattle.rate_io.specs.Events.{Grew, given};
ghost use Rattle.text_lines.specs.Lines.{cut};
ghost use Rattle.cli_exits.specs.Configured.{IsInput};
ghost use Rattle.cli_exits.specs.Parts.{IsOfInput};

use crate::Exit;
use rate_io::{FileFault, Source, read_up_to};
use rate_types::limits::{MOST_BYTES, MOST_LINES};
use std::alloc::Global;
use text_lines::cut_line;

/// Whether there are at most 1,048,576 lines.
#[tactic(auto, using(crate::proofs::Lines::none_cut))]
pub fn are_few_lines(bytes: &[u8]) -> bool
    ensures few { result ≡ true → length (cut bytes.now) ≤ MOST_LINES }
    ensures many { result ≡ false → MOST_LINES < length (cut bytes.now) }
{
    let mut rest = bytes;
    let mut lines = 0u32;
    'lines: while rest.len() > 0 {
        let (_, after) = cut_line(rest);
        if lines >= MOST_LINES {
            return false;
        }
        lines += 1;
        rest = after;
    }
    true
}

/// The bytes that a source has left, where they are neither too many nor too many lines.
pub fn read_input<S: Source>(alloc: Global, source: &mut S) -> Result<Vec<u8>, Exit>
    ensures input { IfOk result (λ b. Grew (S.history source.old) (S.history source.new)
        (λ reads. IsInput (S.left source.old) reads × (given reads ≡ b.items))) }
    ensures few { IfOk result (λ b. length (cut b.items) ≤ MOST_LINES) }
    ensures end { OnOk result (IsAtEnd (S.left source.new)) }
    ensures fault { IfErr result (λ exit. Grew (S.history source.old) (S.history source.new)
        (IsOfInput (S.left source.old) (S.faults source.old, S.faults source.new) exit)) }
{
    let bytes = match read_up_to(alloc, source, MOST_BYTES) {
        Ok(bytes) => bytes,
        Err(FileFault::Failed) => return Err(Exit::ReadFault),
        Err(FileFault::TooLong { .. }) => return Err(Exit::TooLong),
        Err(FileFault::OutOfMemory) => return Err(Exit::OutOfMemory),
    };
    if !are_few_lines(&bytes) {
        return Err(Exit::TooLong);
    }
    Ok(bytes)
}
