// From the value of a reload to a configuration.
ghost use Rattle.std.specs.Prelude.{◌≡◌, IfOk, Some, map};
ghost use Rattle.std.specs.List.{All};
ghost use Rattle.std.specs.Arc.{arc_value};
ghost use Rattle.serde_json.specs.View.{items_view};
ghost use Rattle.rate_types.specs.Reading.{AnswersReading};
ghost use Rattle.rate_types.specs.declared.fault.Fault.{Fault};
ghost use Rattle.rate_types.specs.declared.refused.Refused.{Refused};
ghost use Rattle.proto_json.specs.Said.{reading_of};
ghost use Rattle.proto_json.specs.Held.{list_of, placed_of};
ghost use Rattle.proto_json.specs.Kinds as kinds;
ghost use Rattle.proto_json.specs.Lists.{each_item};
ghost use Rattle.descriptor_tree.specs.Trees.{tree_view};
ghost use Rattle.descriptor_tree.specs.Config.{AreWellFormed};
ghost use Rattle.descriptor_tree.specs.Views.{config_view};
ghost use Rattle.config_json.specs.Trees.{file_at};
ghost use Rattle.script_run.specs.ScriptLine.{reload};
ghost use Rattle.script_text.specs.Script as scripts;
ghost use Rattle.script_text.specs.Pointers.{IsPlain};

use crate::within::within;
use config_json::tree_of;
use descriptor_tree::{Config, ConfigFault, Tree};
use proto_json::{FormFault, List, Placed};
use rate_types::refusals::WRONG_KIND;
use rate_types::{At, OutOfMemory, Place, Refused};
use serde_json::Value;
use std::alloc::Global;

// The list that a value is.
#[tactic(auto, unfolding(proto_json::specs::Kinds::list))]
fn list_in(placed: Placed) -> Result<List, FormFault>
    ensures { AnswersReading (λ l. Some (list_of l)) result
        (reading_of (kinds.list (placed_of placed).place (placed_of placed).value)) }
{
    let Placed { place, value } = placed;
    match value {
        Value::Array(items) => Ok(List { place, items }),
        _ => Err(FormFault::Refused(Refused {
            at: place,
            number: WRONG_KIND,
        })),
    }
}

// The trees of files, one after the other.
fn read_trees(alloc: Global, place: &Place, files: Vec<Value>) -> Result<Vec<Tree>, FormFault>
    ensures trees { AnswersReading (λ v. Some (map tree_view v.items)) result
        (reading_of (each_item file_at (record { place = place.now; items = items_view files.items }))) }
    ensures formed { IfOk result (λ v. All (λ t. AreWellFormed t.forest) (map tree_view v.items)) }
{
    let mut trees = Vec::new(alloc);
    let mut index = 0u64;
    'files: for value in files {
        let at = place.item(alloc, index)?;
        let tree = match tree_of(alloc, value, at) {
            Ok(tree) => tree,
            Err(fault) => return Err(fault),
        };
        trees.push(tree)?;
        index += 1;
    }
    Ok(trees)
}

// The refusal of a file's tree, in a list of files at this place.
fn refused_in(alloc: Global, place: &Place, at: At) -> Result<Refused, OutOfMemory>
    requires { IsPlain at.refused.at }
    ensures { IfOk result (λ r. r ≡ scripts.in_list place.now at) }
{
    let base = place.item(alloc, at.file)?;
    let number = at.refused.number;
    let at = within(alloc, base, at.refused.at.as_str())?;
    Ok(Refused { at, number })
}

// The fault of a configuration, in a list of files at this place.
fn fault_in(alloc: Global, place: &Place, at: At) -> FormFault
    requires { IsPlain at.refused.at }
    ensures { (refused : Refused) → result ≡ Fault.Refused refused → refused ≡ scripts.in_list place.now at }
{
    match refused_in(alloc, place, at) {
        Ok(refused) => FormFault::Refused(refused),
        Err(OutOfMemory) => FormFault::OutOfMemory,
    }
}

// The configuration of these trees.
fn config_of(alloc: Global, place: &Place, trees: Vec<Tree>) -> Result<Config, FormFault>
    requires { All (λ t. AreWellFormed t.forest) (map tree_view trees.items) }
    ensures { AnswersReading (λ c. Some (reload (config_view c))) result
        (reading_of (scripts.config_of place.now (map tree_view trees.items))) }
{
    match Config::build(alloc, trees) {
        Ok(config) => Ok(config),
        Err(ConfigFault::Refused(at)) => Err(fault_in(alloc, place, at)),
        Err(ConfigFault::OutOfMemory) => Err(FormFault::OutOfMemory),
    }
}

// The configuration of a list of files.
#[tactic(auto, using(proto_json::specs::Laws::reading_then), unfolding(crate::specs::Script::configs_in))]
fn configs_in(alloc: Global, list: List) -> Result<Config, FormFault>
    ensures { AnswersReading (λ c. Some (reload (config_view c))) result
        (reading_of (scripts.configs_in (list_of list))) }
{
    let List { place, items } = list;
    let trees = read_trees(alloc, &place, items)?;
    let config = config_of(alloc, &place, trees)?;
    Ok(config)
}

/// The configuration that a reload installs: a list of files as objects. It answers the configuration, or the first fault of
/// reading the files and then of their trees.
#[tactic(auto, using(proto_json::specs::Laws::reading_then), unfolding(crate::specs::Script::reload_in))]
pub fn read_reload(alloc: Global, placed: Placed) -> Result<Config, FormFault>
    ensures { AnswersReading (λ c. Some (reload (config_view c))) result
        (reading_of (scripts.reload_in (placed_of placed))) }
{
    let list = list_in(placed)?;
    let config = configs_in(alloc, list)?;
    Ok(config)
}
