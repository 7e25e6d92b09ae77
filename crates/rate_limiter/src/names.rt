// The names of the counters that a request asks for.
ghost use Rattle.std.specs.Prelude.{◌≡◌, ◌≤◌, ◌++◌, [], ◌∷◌, length, IfOk, OnOk, IfSome};
ghost use Rattle.rate_limiter.specs.Names.{name_under, names_under};

use counter_directory::SoughtName;
use rate_types::{Descriptor, OutOfMemory, Request};
use rule_lookup::Found;
use std::alloc::Global;

// Adds the name of a descriptor's counter, where it has a limit.
fn add_name<'a>(
    names: &mut Vec<SoughtName<'a>>,
    request: &'a Request,
    descriptor: &'a Descriptor,
    found: Found,
) -> Result<(), OutOfMemory>
    ensures { OnOk result (names.new.items ≡ names.old.items ++ name_under request.now descriptor.now found) }
{
    match found {
        Found::NoRule => Ok(()),
        Found::Unlimited { .. } => Ok(()),
        Found::Limited { unit, .. } => {
            names.push(SoughtName::new(request.domain(), &descriptor.entries, unit))?;
            Ok(())
        }
    }
}

/// The names of the counters of the descriptors that have a limit, in order. Their parts are those of the request.
pub(crate) fn names_of<'a>(
    alloc: Global,
    request: &'a Request,
    descriptors: &'a [Descriptor],
    rules: &[Found],
) -> Result<Vec<SoughtName<'a>>, OutOfMemory>
    requires { length rules.now ≡ length descriptors.now }
    ensures names { IfOk result (λ v. v.items ≡ names_under request.now descriptors.now rules.now) }
{
    let mut names = Vec::new(alloc);
    'descriptors: for place in 0..descriptors.len() {
        add_name(&mut names, request, &descriptors[place], rules[place])?;
    }
    Ok(names)
}

/// The name of the counter of a request with one descriptor, where that has a limit. Its parts are those of the request.
pub(crate) fn one_name<'a>(
    request: &'a Request,
    descriptors: &'a [Descriptor],
    rules: &[Found],
) -> Option<SoughtName<'a>>
    ensures names { IfSome result (λ name. name ∷ [] ≡ names_under request.now descriptors.now rules.now) }
{
    match (descriptors, rules) {
        ([descriptor], [Found::Limited { unit, .. }]) => Some(SoughtName::new(
            request.domain(),
            &descriptor.entries,
            *unit,
        )),
        _ => None,
    }
}
