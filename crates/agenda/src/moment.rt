ghost use Rattle.std.specs.Prelude.{◌≡◌};
ghost use Rattle.agenda.specs.Reached.{earlier, is_reached};

/// The earlier of two moments, as far as there are such.
pub fn earlier(a: Option<u64>, b: Option<u64>) -> Option<u64>
    ensures { result ≡ earlier a b }
{
    match (a, b) {
        (Some(a), Some(b)) => Some(a.min(b)),
        (Some(a), None) => Some(a),
        (None, b) => b,
    }
}

/// Whether a moment that there may be isn't later than `at`.
pub fn is_reached(moment: Option<u64>, at: u64) -> bool
    ensures { result ≡ is_reached at moment }
{
    match moment {
        Some(moment) => moment <= at,
        None => false,
    }
}
