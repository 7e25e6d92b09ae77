// The lines of a made-up load.
ghost use Rattle.std.specs.Prelude.{◌≡◌, ◌≤◌, ◌<◌, ◌∷◌, [], length, IfOk};
ghost use Rattle.rate_types.specs.declared.limits.TheConstants.{MOST_LINES};
ghost use Rattle.load_gen.specs.declared.constants.TheConstants.{VALUES};
ghost use Rattle.load_gen.specs.Load as spec;

use crate::config::short_text;
use crate::constants::{BATCH, DOMAIN, KEY, STEP, VALUES};
use arrayvec::ArrayString;
use itoa::Buffer;
use json::Scratch;
use rate_types::{Descriptor, Entries, Entry, OutOfMemory, Request, Text};
use script_lines::ScriptLines;
use script_run::Line;
use std::alloc::Global;

// Room for a value's text: a letter and the digits of a u32.
const LONGEST_VALUE: usize = 11;

// The value of the check of this index, counted from 0.
#[tactic(auto, using(crate::proofs::Values::value_same))]
fn value_at(number: u64, index: u32) -> u32
    ensures value { result ≡ spec.value_at number index }
    ensures small { result < VALUES }
{
    let first = number % u64::from(VALUES);
    ((first + u64::from(STEP) * u64::from(index)) % u64::from(VALUES)) as u32
}

// The value's text.
#[tactic(auto, using(crate::proofs::Values::value_short))]
fn value_text(alloc: Global, value: u32) -> Result<Text, OutOfMemory>
    requires { value < VALUES }
    ensures { IfOk result (λ t. t ≡ spec.value_text value) }
{
    let mut digits = Buffer::new();
    let mut text = ArrayString::<LONGEST_VALUE>::new();
    text.push_str("v");
    text.push_str(digits.format(value));
    short_text(alloc, text.as_str())
}

// The entry of a value.
fn entry_for(alloc: Global, value: u32) -> Result<Entry, OutOfMemory>
    requires { value < VALUES }
    ensures { IfOk result (λ e. e ≡ spec.entry_for value) }
{
    let key = short_text(alloc, KEY)?;
    let value = value_text(alloc, value)?;
    Ok(Entry { key, value })
}

// The descriptor of a value.
fn descriptor_for(alloc: Global, value: u32) -> Result<Descriptor, OutOfMemory>
    requires { value < VALUES }
    ensures { IfOk result (λ d. d ≡ spec.descriptor_for value) }
{
    let entry = entry_for(alloc, value)?;
    match Entries::one(entry) {
        Ok(entries) => Ok(Descriptor {
            entries,
            own: None,
            hits: None,
        }),
        Err(_) => unreachable!(),
    }
}

// The request that asks for a value.
fn request_for(alloc: Global, value: u32) -> Result<Request, OutOfMemory>
    requires { value < VALUES }
    ensures { IfOk result (λ r. r ≡ spec.request_for value) }
{
    let domain = short_text(alloc, DOMAIN)?;
    let descriptor = descriptor_for(alloc, value)?;
    match Request::one(domain, descriptor, 1) {
        Ok(request) => Ok(request),
        Err(_) => unreachable!(),
    }
}

/// The load of a number: so many checks, each of which is made when it is run.
#[derive(Clone, Copy)]
pub struct Load {
    pub number: u64,
    /// At most 1,048,576.
    pub checks: u32,
    ghost few: { checks ≤ MOST_LINES },
}

impl ScriptLines for Load {
    ghost lines = { λ l. spec.load_lines l.number l.checks };

    #[tactic(auto, using(crate::proofs::Runs::lines_length))]
    fn count(&self) -> u32 {
        self.checks
    }

    fn batch(&self) -> u64 {
        BATCH
    }

    #[tactic(auto, using(crate::proofs::Runs::lines_length))]
    fn read(&self, alloc: Global, _: &mut Scratch, index: usize) -> Result<Line, OutOfMemory> {
        let request = request_for(alloc, value_at(self.number, index as u32))?;
        Ok(Line::Check(request))
    }
}
