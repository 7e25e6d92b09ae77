// The statuses of an answered check are noted.
ghost use Rattle.std.specs.Prelude.{◌≡◌};
ghost use Rattle.std.specs.Option.{option_map};
ghost use Rattle.counted_checks.specs.Counting.{noting, statuses_noted};

use crate::PassStats;
use rate_types::Request;
use rls_core::Status;

/// Notes the status of each descriptor, with the hits of the descriptor.
pub(crate) fn note_all<'a>(stats: &mut PassStats<'a>, request: &Request, statuses: &[Status])
    ensures { stats.new ≡ option_map (noting (statuses_noted request.now request.now.descriptors statuses.now)) stats.old }
{
    let descriptors = request.descriptors();
    let both = descriptors.len().min(statuses.len());
    'descriptors: for place in 0..both {
        let hits = descriptors[place].hits.unwrap_or(request.hits());
        stats.note(hits, &statuses[place]);
    }
}
