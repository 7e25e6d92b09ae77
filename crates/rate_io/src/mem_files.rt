ghost use Rattle.std.specs.Prelude.{◌≡◌, ◌≢◌, ◌∷◌, [], ◌++◌, ◌≤◌, ℕ, List, Err, IfOk, length, option_map, find};
ghost use Rattle.std.specs.Option.{option_copied};
ghost use Rattle.std.specs.Str.{bytes_eq};
ghost use Rattle.rate_io.specs.Causes.{Rose};
ghost use Rattle.rate_io.specs.Events.{ReadWhole, read_failed};
ghost use Rattle.rate_io.specs.declared.files.FileFault.TheVariants.{TooLong};

use crate::{Call, FileCall, FileFault, FileHistory, Files, History};
use rate_types::{Blob, Word};
use std::alloc::Global;

/// A file in memory.
#[derive(Drop)]
pub struct MemFile {
    pub name: Word,
    pub content: Blob,
}

/// Files in memory. Calls are counted from 1, and those with a number in `failing` fail. A name that no file has
/// fails too; of two files with one name the first counts.
#[derive(Drop)]
pub struct MemFiles {
    files: Vec<MemFile>,
    calls: u64,
    failing: Vec<u64>,
    history: FileHistory,
    faults: u64,
}

impl MemFiles {
    /// These files. It takes no memory.
    pub fn new(files: Vec<MemFile>, failing: Vec<u64>) -> MemFiles
        ensures content { (name : List ℕ) → ⟦<MemFiles as Files>⟧.content result name
            ≡ option_map (λ f. f.content) (find (λ f. bytes_eq f.name name) files.items) }
        ensures history { ⟦<MemFiles as Files>⟧.history result ≡ [] }
        ensures faults { ⟦<MemFiles as Files>⟧.faults result ≡ 0 }
    {
        MemFiles {
            files,
            calls: 0,
            failing,
            history: FileHistory::new(),
            faults: 0,
        }
    }
}

fn file_named<'a>(files: &'a [MemFile], name: &str) -> Option<&'a MemFile>
    ensures { option_copied result ≡ find (λ f. bytes_eq f.name name.now) files.now }
{
    files.iter().find(|file| file.name.as_str() == name)
}

// The bytes of a file, where they are at most so many, and the reads that hand them out.
fn content_within(alloc: Global, bytes: &[u8], limit: u64) -> (Result<Vec<u8>, FileFault>, History)
    ensures bytes { IfOk result.0 (λ v. v.items ≡ bytes.now) }
    ensures longer { (read : ℕ) → result.0 ≡ Err (TooLong read) → read ≡ length bytes.now }
    ensures never { result.0 ≢ Err FileFault.Failed }
    ensures reads { ReadWhole (λ v. v.items) limit result.0 result.1.events }
{
    let gave = History::new().and(&Call::Gave(bytes));
    let read = bytes.len() as u64;
    if read > limit {
        return (Err(FileFault::TooLong { read }), gave);
    }
    match bytes.to_vec(alloc) {
        Ok(bytes) => (Ok(bytes), gave.and(&Call::Ended)),
        Err(_) => (Err(FileFault::OutOfMemory), gave),
    }
}

impl MemFiles {
    // Notes a call that failed.
    fn fail(&mut self, name: &str) -> FileFault
        ensures fault { result ≡ FileFault.Failed }
        ensures files { self.new.files ≡ self.old.files }
        ensures event { self.new.history.events ≡ self.old.history.events ++ (name.now, read_failed ∷ []) ∷ [] }
        ensures later { self.old.faults ≤ self.new.faults }
        ensures rose { Rose self.old.faults self.new.faults }
    {
        let reads = &History::new().and(&Call::ReadFailed);
        self.history = self.history.and(&FileCall { name, reads });
        self.faults = self.faults.saturating_add(1);
        FileFault::Failed
    }
}

impl Files for MemFiles {
    ghost content = { λ s name. option_map (λ f. f.content) (find (λ f. bytes_eq f.name name) s.files.items) };

    ghost history = { λ s. s.history.events };

    ghost faults = { λ s. s.faults };

    fn read(&mut self, alloc: Global, name: &str, limit: u64) -> Result<Vec<u8>, FileFault> {
        self.calls = self.calls.saturating_add(1);
        if self.failing.contains(&self.calls) {
            return Err(self.fail(name));
        }
        let Some(file) = file_named(&self.files, name) else {
            return Err(self.fail(name));
        };
        let (read, reads) = content_within(alloc, file.content.bytes(), limit);
        self.history = self.history.and(&FileCall {
            name,
            reads: &reads,
        });
        read
    }
}
