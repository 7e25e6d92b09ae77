// The place of what stands within something that has a place itself.
ghost use Rattle.std.specs.Prelude.{◌≡◌, ◌<◌, ◌++◌, ◌∷◌, IfOk};
ghost use Rattle.std.specs.List.{AllByRecursion};
ghost use Rattle.script_text.specs.Pointers.{IsStep, IsPlain};

use rate_types::{OutOfMemory, Place};
use std::alloc::Global;

// The place one step further.
#[tactic(auto, using(crate::proofs::Plain::plain_child))]
fn stepped(place: &Place, step: &str) -> Result<Place, OutOfMemory>
    requires { IsStep step.now }
    ensures { IfOk result (λ p. p ≡ place.now ++ 47 ∷ step.now) }
{
    place.child(step)
}

// The place behind these steps, the slash before the first of them left out.
fn behind(alloc: Global, base: Place, steps: &[u8]) -> Result<Place, OutOfMemory>
    requires { AllByRecursion (λ b. b < 126) steps.now }
    ensures { IfOk result (λ p. p ≡ base ++ 47 ∷ steps.now) }
{
    let mut place = base;
    let mut step = String::new(alloc);
    'steps: for index in 0..steps.len() {
        let b = steps[index];
        if b == b'/' {
            place = stepped(&place, &step)?;
            step = String::new(alloc);
            continue;
        }
        step.push(b as char)?;
    }
    stepped(&place, &step)
}

/// The place `inner` in a document, where that is a part of another one and stands at the place `base` there.
pub fn within(alloc: Global, base: Place, inner: &str) -> Result<Place, OutOfMemory>
    requires { IsPlain inner.now }
    ensures { IfOk result (λ p. p ≡ base ++ inner.now) }
{
    match inner.as_bytes().split_first() {
        Some((_, steps)) => behind(alloc, base, steps),
        None => Ok(base),
    }
}
