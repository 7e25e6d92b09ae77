// From the bytes of a line to the line.
ghost use Rattle.std.specs.Prelude.{◌≡◌, IfOk, Some, option_map};
ghost use Rattle.serde_json.specs.View.{view};
ghost use Rattle.rate_types.specs.declared.fault.Fault.{Fault};
ghost use Rattle.proto_json.specs.Said.{reading_of};
ghost use Rattle.proto_json.specs.Held.{object_of, placed_of};
ghost use Rattle.script_text.specs.LineAnswers.{AnswersLine};
ghost use Rattle.script_run.specs.Views.{line_view};
ghost use Rattle.script_text.specs.Script as scripts;

use crate::field_names::{CHECK, RELOAD, TICK};
use crate::reload::read_reload;
use crate::usual::usual_line;
use json::Scratch;
use proto_json::{Fields, FormFault, Placed, parse, read_whole};
use rate_types::limits::LATEST_MOMENT;
use rate_types::refusals::{NO_EVENT, TWO_EVENTS};
use rate_types::{OutOfMemory, Place, Refused, Seconds};
use reply_text::read_request;
use script_run::Line;
use serde_json::Value;
use std::alloc::Global;
use std::sync::Arc;

// A line that checks a request.
#[tactic(auto, using(proto_json::specs::Laws::reading_then), unfolding(crate::specs::Script::check_in))]
fn check_in(alloc: Global, placed: Placed) -> Result<Line, FormFault>
    ensures { AnswersLine result (reading_of (scripts.check_in (placed_of placed))) }
{
    let request = read_request(alloc, placed.value, placed.place)?;
    Ok(Line::Check(request))
}

// A line that offers a moment.
#[tactic(auto, using(proto_json::specs::Laws::reading_then), unfolding(crate::specs::Script::tick_in))]
fn tick_in(placed: Placed) -> Result<Line, FormFault>
    ensures { AnswersLine result (reading_of (scripts.tick_in (placed_of placed))) }
{
    let moment = read_whole(placed.value, placed.place, LATEST_MOMENT)?;
    Ok(Line::Tick(Seconds::capped(moment)))
}

// A line that installs a configuration.
fn reload_in(alloc: Global, placed: Placed) -> Result<Line, FormFault>
    ensures { AnswersLine result (reading_of (scripts.reload_in (placed_of placed))) }
{
    let config = read_reload(alloc, placed)?;
    let config = Arc::new(alloc, config)?;
    Ok(Line::Reload(config))
}

fn refused(at: Place, number: u32) -> FormFault
    ensures { result ≡ Fault.Refused (record { at = at; number = number }) }
{
    FormFault::Refused(Refused { at, number })
}

// The line with the one event that is there.
fn one_event(
    alloc: Global,
    at: Place,
    check: Option<Placed>,
    reload: Option<Placed>,
    tick: Option<Placed>,
) -> Result<Line, FormFault>
    ensures { AnswersLine result (reading_of
        (scripts.one_event at (option_map placed_of check) (option_map placed_of reload) (option_map placed_of tick))) }
{
    match (check, reload, tick) {
        (None, None, None) => Err(refused(at, NO_EVENT)),
        (Some(placed), None, None) => check_in(alloc, placed),
        (None, Some(placed), None) => reload_in(alloc, placed),
        (None, None, Some(placed)) => tick_in(placed),
        (_, _, _) => Err(refused(at, TWO_EVENTS)),
    }
}

// The line of its fields.
#[tactic(auto, using(proto_json::specs::Laws::reading_then), unfolding(crate::specs::Script::line_in))]
fn line_in(alloc: Global, mut fields: Fields) -> Result<Line, FormFault>
    ensures { AnswersLine result (reading_of (scripts.line_in (object_of fields))) }
{
    let check = fields.take_value(CHECK)?;
    let reload = fields.take_value(RELOAD)?;
    let tick = fields.take_value(TICK)?;
    let at = fields.end()?;
    let line = one_event(alloc, at, check, reload, tick)?;
    Ok(line)
}

// The line that a value is.
#[tactic(auto, using(proto_json::specs::Laws::reading_then), unfolding(proto_json::specs::Kinds::and_read))]
fn line_at(alloc: Global, value: Value, at: Place) -> Result<Line, FormFault>
    ensures { AnswersLine result (reading_of (scripts.line_at at (view value))) }
{
    let fields = Fields::of(value, at)?;
    let line = line_in(alloc, fields)?;
    Ok(line)
}

// The line that bytes are, where they aren't refused.
#[tactic(auto, using(proto_json::specs::Laws::reading_then), unfolding(crate::specs::Script::line))]
fn event_of(alloc: Global, bytes: &[u8]) -> Result<Line, FormFault>
    ensures { AnswersLine result (reading_of (scripts.line bytes.now)) }
{
    let value = parse(alloc, bytes)?;
    let line = line_at(alloc, value, Place::empty(alloc))?;
    Ok(line)
}

// The line of any bytes, by their value.
fn any_line(alloc: Global, bytes: &[u8]) -> Result<Line, OutOfMemory>
    ensures { IfOk result (λ l. line_view l ≡ scripts.line_of bytes.now) }
{
    match event_of(alloc, bytes) {
        Ok(line) => Ok(line),
        Err(FormFault::Refused(refused)) => Ok(Line::Bad(refused)),
        Err(FormFault::OutOfMemory) => Err(OutOfMemory),
    }
}

/// Reads a line of a script. The scratch is kept from line to line.
#[inline(always)]
pub fn read_line(alloc: Global, scratch: &mut Scratch, bytes: &[u8]) -> Result<Line, OutOfMemory>
    ensures { IfOk result (λ l. line_view l ≡ scripts.line_of bytes.now) }
{
    match usual_line(alloc, scratch, bytes)? {
        Some(line) => Ok(line),
        None => any_line(alloc, bytes),
    }
}
