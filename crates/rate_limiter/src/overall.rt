// What a reply says beside its statuses: the version, the moment and the overall code.
ghost use Rattle.std.specs.Prelude.{◌≡◌, ◌&&◌, not};
ghost use Rattle.std.specs.List.{list_any};
ghost use Rattle.rls_core.specs.Reply.{is_over_limit};

use rate_types::Seconds;
use rls_core::{Code, Reply, Status};

fn is_over_limit(status: &Status) -> bool
    ensures { result ≡ is_over_limit status.now.code }
{
    match status.code {
        Code::OverLimit => true,
        Code::Ok => false,
    }
}

fn any_over_limit(statuses: &[Status]) -> bool
    ensures { result ≡ list_any (λ s. is_over_limit s.code) statuses.now }
{
    statuses.iter().any(is_over_limit)
}

// Whether the overall code of these statuses is OVER_LIMIT: one of theirs is, and global shadow is off.
fn is_over(statuses: &[Status], global_shadow: bool) -> bool
    ensures { result ≡ (list_any (λ s. is_over_limit s.code) statuses.now && not global_shadow) }
{
    any_over_limit(statuses) && !global_shadow
}

/// Writes the rest of a reply whose statuses are written.
pub(crate) fn finish_reply(reply: &mut Reply, version: u32, moment: Seconds, global_shadow: bool)
    ensures statuses { reply.new.statuses ≡ reply.old.statuses }
    ensures version { reply.new.version ≡ version }
    ensures moment { reply.new.moment ≡ moment }
    ensures over { reply.new.over ≡ (list_any (λ s. is_over_limit s.code) reply.new.statuses.items && not global_shadow) }
{
    reply.version = version;
    reply.moment = moment;
    reply.over = is_over(reply.statuses.as_slice(), global_shadow);
}
