ghost use Rattle.std.specs.Prelude.{◌≡◌, map, IfOk, [], OnOk};
ghost use Rattle.rate_types.specs.Reading.{AnswersReading, first_or};
ghost use Rattle.descriptor_tree.specs.Views.{config_view};
ghost use Rattle.config_json.specs.Reading.{reading_of};
ghost use Rattle.std.specs.List.{All};
ghost use Rattle.descriptor_tree.specs.Trees.{tree_view};
ghost use Rattle.descriptor_tree.specs.Config.{AreWellFormed};
ghost use Rattle.config_json.specs.Reading as reading;
ghost use Rattle.rate_types.specs.declared.refused.At.{At};

use crate::file::read_file;
use descriptor_tree::{Config, ConfigFault, Tree};
use proto_json::FormFault;
use rate_types::{At, Blob, Blobs};
use std::alloc::Global;

// A fault of reading a file of this index.
fn in_file(file: u64, fault: FormFault) -> ConfigFault
    ensures { result ≡ reading.placed file fault }
{
    match fault {
        FormFault::Refused(refused) => ConfigFault::Refused(At { file, refused }),
        FormFault::OutOfMemory => ConfigFault::OutOfMemory,
    }
}

// Reads the files one after the other.
fn read_files(alloc: Global, files: &[Blob]) -> Result<Vec<Tree>, ConfigFault>
    ensures trees { AnswersReading (λ v. map tree_view v.items) result
        (first_or (reading.file_faults 0 files.now) (reading.trees_of files.now)) }
    ensures formed { IfOk result (λ v. All (λ t. AreWellFormed t.forest) (map tree_view v.items)) }
{
    let mut trees = Vec::new(alloc);
    'files: for index in 0..files.len() {
        let tree = match read_file(alloc, files[index].bytes()) {
            Ok(tree) => tree,
            Err(fault) => return Err(in_file(index as u64, fault)),
        };
        trees.push(tree)?;
    }
    Ok(trees)
}

/// Reads configuration files, in order, and makes a configuration of their trees. It answers what the files spell, or
/// their first fault with its file, counted from 0, its place in the file and its number: first those of reading each
/// file, then those of the trees.
pub fn read_config(alloc: Global, files: &Blobs) -> Result<Config, ConfigFault>
    ensures { AnswersReading config_view result (reading_of files.now) }
{
    match read_files(alloc, files.items()) {
        Ok(trees) => Config::build(alloc, trees),
        Err(fault) => Err(fault),
    }
}
