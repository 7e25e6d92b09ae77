// From the links of each worker to the links in the order of accepting.
ghost use Rattle.std.specs.Prelude.{◌≡◌, ◌≤◌, ◌<◌, IfOk, IsSome, Some, None, map, replicate, vec_len};
ghost use Rattle.std.specs.List.{AllByRecursion};
ghost use Rattle.http_serve.specs.Merged.{EachNumberOnce, Merges, joined, all_placed};

use crate::Served;
use rate_io::Link;
use rate_types::{Items, OutOfMemory};
use std::alloc::Global;

// A place for each link.
fn places_for<N: Link + Drop>(
    alloc: Global,
    count: u32,
) -> Result<Vec<Option<Served<N>>>, OutOfMemory>
    ensures { IfOk result (λ v. v.items ≡ replicate count None) }
{
    let mut places = Vec::with_capacity(alloc, count as usize)?;
    for _ in 0..count {
        places.push_reserved(None);
    }
    Ok(places)
}

// Each link at the place of its number.
fn put<N: Link + Drop>(places: &mut Vec<Option<Served<N>>>, list: Items<Served<N>>)
    requires { AllByRecursion (λ s. s.number < vec_len places.old) list }
    ensures { places.new.items ≡ all_placed places.old.items list }
{
    for served in list.into_items() {
        let place = served.number as usize;
        places[place] = Some(served);
    }
}

/// What is at the places, where there is something at each.
pub fn filled<T: Drop>(alloc: Global, places: Vec<Option<T>>) -> Result<Vec<T>, OutOfMemory>
    requires { AllByRecursion (λ p. IsSome p) places.items }
    ensures { IfOk result (λ r. map Some r.items ≡ places.items) }
{
    let mut all = Vec::with_capacity(alloc, places.len())?;
    for place in places {
        let Some(one) = place else { unreachable!() };
        all.push_reserved(one);
    }
    Ok(all)
}

/// The links of these lists in the order of their numbers, where each of so many has one place in one of them.
pub fn merge<N: Link + Drop>(
    alloc: Global,
    count: u32,
    lists: Vec<Items<Served<N>>>,
) -> Result<Vec<Served<N>>, OutOfMemory>
    requires once { EachNumberOnce count (joined lists.items) }
    ensures merged { IfOk result (λ r. Merges count lists.items r.items) }
{
    let mut places = places_for(alloc, count)?;
    for list in lists {
        put(&mut places, list);
    }
    filled(alloc, places)
}
