// From the names of files to a configuration.
ghost use Rattle.std.specs.Prelude.{◌≡◌, ◌≤◌, Ok, IfOk, IfErr, map};
ghost use Rattle.rate_types.specs.declared.limits.TheConstants.{MOST_BYTES};
ghost use Rattle.config_json.specs.Reading.{reading_of};
ghost use Rattle.descriptor_tree.specs.Views.{config_view};
ghost use Rattle.rate_io.specs.Events.{Grew};
ghost use Rattle.cli_exits.specs.Jobs.{asked};
ghost use Rattle.cli_exits.specs.World.{AreFilesOf};
ghost use Rattle.cli_exits.specs.Parts.{IsOfFiles, IsOfConfig};

use crate::Exit;
use config_json::read_config;
use descriptor_tree::{Config, ConfigFault};
use rate_io::{FileFault, Files};
use rate_types::limits::MOST_BYTES;
use rate_types::{Blob, Blobs, Word};
use std::alloc::Global;

/// The bytes of the files of these names, in order. The first that can't be read ends it.
pub fn read_files<F: Files>(alloc: Global, files: &mut F, names: &[Word]) -> Result<Blobs, Exit>
    ensures contents { IfOk result (λ b. Grew (F.history files.old) (F.history files.new)
        (λ calls. AreFilesOf (F.content files.old) (map (asked MOST_BYTES) names.now) calls b)) }
    ensures fault { IfErr result (λ exit. Grew (F.history files.old) (F.history files.new)
        (IsOfFiles (F.content files.old) (map (asked MOST_BYTES) names.now) (F.faults files.old, F.faults files.new) exit)) }
    ensures same { F.content files.new ≡ F.content files.old }
    ensures later { F.faults files.old ≤ F.faults files.new }
{
    let mut blobs = Vec::new(alloc);
    'names: for index in 0..names.len() {
        let bytes = match files.read(alloc, names[index].as_str(), MOST_BYTES) {
            Ok(bytes) => bytes,
            Err(FileFault::Failed) => return Err(Exit::FileFault(index as u64)),
            Err(FileFault::TooLong { .. }) => return Err(Exit::TooLong),
            Err(FileFault::OutOfMemory) => return Err(Exit::OutOfMemory),
        };
        if blobs.push(Blob::of(bytes)).is_err() {
            return Err(Exit::OutOfMemory);
        }
    }
    Ok(Blobs::of(blobs))
}

/// The configuration that these files spell.
pub fn configuration(alloc: Global, files: &Blobs) -> Result<Config, Exit>
    ensures spells { IfOk result (λ c. reading_of files.now ≡ Ok (config_view c)) }
    ensures fault { IfErr result (IsOfConfig (reading_of files.now)) }
{
    match read_config(alloc, files) {
        Ok(config) => Ok(config),
        Err(ConfigFault::Refused(at)) => Err(Exit::ConfigRefused(at)),
        Err(ConfigFault::OutOfMemory) => Err(Exit::OutOfMemory),
    }
}
