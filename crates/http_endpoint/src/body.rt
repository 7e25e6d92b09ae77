// The rest of a request whose head is read.
ghost use Rattle.std.specs.Prelude.{◌≡◌, ◌≤◌, ◌+◌, ◌++◌, List, length, vec_capacity};
ghost use Rattle.rate_io.specs.Events.{Event, given};
ghost use Rattle.http_endpoint.specs.Steps.{WaitsUntil, Drew, Completes};

use crate::inbox::Filled;
use rate_io::Link;

/// The most bytes of one read.
const PIECE: usize = 4_096;

/// Reads on until there are `total` bytes.
pub fn keep_body<L: Link>(kept: &mut Vec<u8>, link: &mut L, total: usize) -> Filled
    requires within { length kept.old.items ≤ total }
    requires room { total ≤ vec_capacity kept.old }
    requires waits { WaitsUntil kept.old.items total }
    ensures { (events : List Event) × Drew kept.old.items (L.state link.old) (L.state link.new) events
        × (kept.new.items ≡ kept.old.items ++ given events)
        × Completes total (length kept.old.items + length (given events)) (L.state link.old) (L.state link.new) events result }
{
    let mut buf = [0u8; PIECE];
    'turns: while kept.len() < total {
        let most = (total - kept.len()).min(PIECE);
        let Ok(count) = link.read(&mut buf[..most]) else {
            return Filled::Failed;
        };
        if count == 0 {
            return Filled::End;
        }
        let _kept = kept.extend_from_slice(&buf[..count]).is_ok();
    }
    Filled::More
}

/// Reads on until there would be `total` bytes, and keeps none.
pub fn drop_body<L: Link>(unread: &[u8], link: &mut L, total: usize) -> Filled
    requires within { length unread.now ≤ total }
    requires waits { WaitsUntil unread.now total }
    ensures { (events : List Event) × Drew unread.now (L.state link.old) (L.state link.new) events
        × Completes total (length unread.now + length (given events)) (L.state link.old) (L.state link.new) events result }
{
    let mut buf = [0u8; PIECE];
    let mut left = total - unread.len();
    'turns: while left > 0 {
        let most = left.min(PIECE);
        let Ok(count) = link.read(&mut buf[..most]) else {
            return Filled::Failed;
        };
        if count == 0 {
            return Filled::End;
        }
        left -= count;
    }
    Filled::More
}
