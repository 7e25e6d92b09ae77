// What a check asks for a descriptor.
ghost use Rattle.std.specs.Prelude.{◌≡◌};
ghost use Rattle.rate_limiter.specs.Asked.{is_missing, is_over, is_to_count};

use crate::known_counters::seen_of;
use over_cache::Known;
use rule_lookup::Found;

/// What a check asks for a descriptor: the rule that it finds, its hits, and what the pass knows of its counter, where it has one.
#[derive(Clone, Copy, Default)]
pub struct Asked {
    pub found: Found,
    pub hits: u32,
    pub known: Option<Known>,
}

/// Whether the descriptor has a counter that isn't known.
pub(crate) fn is_missing(asked: &Asked) -> bool
    ensures { result ≡ is_missing asked.now.found asked.now.known }
{
    match asked.found {
        Found::NoRule => false,
        Found::Unlimited { .. } => false,
        Found::Limited { .. } => asked.known.is_none(),
    }
}

/// Whether there are hits, and the counter was seen above the limit: then that is the answer, and nothing is to be counted.
pub(crate) fn is_over(limit: u32, hits: u32, seen: u64) -> bool
    ensures { result ≡ is_over limit hits seen }
{
    hits > 0 && seen > u64::from(limit)
}

/// Whether something is to be counted for the descriptor: it has a limit, above which its counter wasn't seen, or it has no hits.
pub(crate) fn is_to_count(asked: &Asked) -> bool
    ensures { result ≡ is_to_count asked.now.found asked.now.hits asked.now.known }
{
    match asked.found {
        Found::NoRule => false,
        Found::Unlimited { .. } => false,
        Found::Limited { limit, .. } => !is_over(limit, asked.hits, seen_of(asked.known)),
    }
}
