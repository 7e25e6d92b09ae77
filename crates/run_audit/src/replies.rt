// Whether answered checks are replies by rule.
ghost use Rattle.std.specs.Prelude.{◌≡◌, ◌↔◌, ◌&&◌, not, IsTrue, IsSome, Some, length, map};
ghost use Rattle.std.specs.List.{list_any};
ghost use Rattle.rls_core.specs.Reply.{hits_of, is_over_limit, AreStatuses, IsReplyOf};
ghost use Rattle.rls_core.specs.Status.{status_of};
ghost use Rattle.script_run.specs.Replies.{IsByRule};
ghost use Rattle.script_run.specs.Views.{line_view};
ghost use Rattle.run_audit.specs.Equal.{same_answer};
ghost use Rattle.run_audit.specs.Ruled.{with_rule, with_rules, ruled, RuledByRule};
ghost use Rattle.run_audit.specs.VersionAt.{config_at};

use crate::configs::index_of;
use crate::connectives::both;
use crate::equal::same_shown;
use crate::of_record::moment_of;
use crate::{Configs, Fact, each_line};
use rate_types::{Descriptor, Request, Seconds};
use reply_text::{Outcome, Record, Statuses};
use rls_core::{Code, Count, Status, status_for};
use rule_lookup::{Found, Index, find_rules};
use script_run::Line;

fn hits_of(request: &Request, descriptor: &Descriptor) -> u32
    ensures { result ≡ hits_of request.now descriptor.now }
{
    descriptor.hits.unwrap_or(request.hits())
}

// Whether a descriptor that finds this, with these hits and this count, has a status.
fn is_counted(found: Found, moment: Seconds, hits: u32, count: Count) -> bool
    ensures { IsTrue result ↔ IsSome (status_of found moment hits count) }
{
    match found {
        Found::NoRule => match count {
            Count::NoCount => true,
            Count::Before(_) => false,
            Count::Seen(_) => false,
        },
        Found::Unlimited { .. } => match count {
            Count::NoCount => true,
            Count::Before(_) => false,
            Count::Seen(_) => false,
        },
        Found::Limited { limit, .. } => match count {
            Count::NoCount => false,
            Count::Before(_) => hits > 0,
            Count::Seen(seen) => hits == 0 || seen > u64::from(limit),
        },
    }
}

// Whether a status, with the rule that was found, is the one of its count.
fn is_status(found: Found, moment: Seconds, hits: u32, status: Status) -> bool
    ensures { IsTrue result ↔ (status_of found moment hits status.count ≡ Some (with_rule found status)) }
{
    if !is_counted(found, moment, hits, status.count) {
        return false;
    }
    let right = status_for(found, moment, hits, status.count);
    same_shown(right, status)
}

// Whether each descriptor has the status of its rule and its count.
fn are_statuses(index: &Index, request: &Request, moment: Seconds, statuses: &[Status]) -> bool
    ensures { IsTrue result ↔ AreStatuses index.now request.now moment request.now.descriptors
        (with_rules index.now request.now request.now.descriptors statuses.now) }
{
    let descriptors = request.descriptors();
    if statuses.len() != descriptors.len() {
        return false;
    }
    let rules = find_rules(index, request.domain(), descriptors);
    'descriptors: for i in 0..descriptors.len() {
        let hits = hits_of(request, &descriptors[i]);
        if !is_status(rules[i], moment, hits, statuses[i]) {
            return false;
        }
    }
    true
}

fn is_over(code: Code) -> bool
    ensures { result ≡ is_over_limit code }
{
    match code {
        Code::OverLimit => true,
        Code::Ok => false,
    }
}

fn some_is_over(statuses: &[Status]) -> bool
    ensures { result ≡ list_any (λ s. is_over_limit s.code) statuses.now }
{
    statuses.iter().any(|s| is_over(s.code))
}

// Whether this is the overall code, where a status is over its limit or none is.
fn is_overall(shown: bool, some_over: bool, global_shadow: bool) -> bool
    ensures { result ≡ same_answer shown (some_over && not global_shadow) }
{
    let over = some_over && !global_shadow;
    if shown { over } else { !over }
}

// Whether an answer is the reply of its request.
fn is_reply(
    index: &Index,
    global_shadow: bool,
    request: &Request,
    moment: Seconds,
    answer: &Statuses,
) -> bool
    ensures { IsTrue result ↔ IsReplyOf index.now request.now moment global_shadow answer.now.over
        (with_rules index.now request.now request.now.descriptors answer.now.statuses) }
{
    let each = are_statuses(index, request, moment, answer.items().as_slice());
    let over = some_is_over(answer.items().as_slice());
    let overall = is_overall(answer.over(), over, global_shadow);
    let stands = both(each, overall);
    stands
}

// Whether what came of a line is the reply of its request, where it is an answer.
fn is_by_rule(
    index: &Index,
    global_shadow: bool,
    line: &Line,
    moment: Seconds,
    outcome: &Outcome,
) -> bool
    ensures { IsTrue result ↔ IsByRule index.now global_shadow (line_view line.now) moment
        (ruled index.now (line_view line.now) outcome.now) }
{
    match line {
        Line::Check(request) => match outcome {
            Outcome::Checked(answer) => is_reply(index, global_shadow, request, moment, answer),
            Outcome::Ticked(_) => true,
            Outcome::Installed => true,
            Outcome::Bad(_) => true,
            Outcome::Full { .. } => true,
            Outcome::Spent { .. } => true,
            Outcome::VersionsFull { .. } => true,
        },
        Line::Reload(_) => true,
        Line::Tick(_) => true,
        Line::Bad(_) => true,
    }
}

/// An answered check is the reply of its request by its version.
#[derive(Clone, Copy)]
pub struct ByRule<'a> {
    pub configs: &'a Configs,
    pub global_shadow: bool,
}

fn is_ruled(index: &Index, global_shadow: bool, line: &Line, rec: &Record) -> bool
    ensures { IsTrue result ↔ IsByRule index.now global_shadow (line_view line.now) rec.now.moment
        (ruled index.now (line_view line.now) rec.now.outcome) }
{
    let moment = moment_of(rec);
    is_by_rule(index, global_shadow, line, moment, &rec.outcome)
}

impl Fact for ByRule<'_> {
    ghost use Rattle.script_run.specs.Replies.{IsByRule};
    ghost use Rattle.run_audit.specs.Equal.{same_answer};
    ghost use Rattle.run_audit.specs.Ruled.{ruled};
    ghost use Rattle.run_audit.specs.VersionAt.{config_at};

    ghost stands = { λ f before earlier l r. IsByRule (config_at f.configs.now r.version) f.global_shadow l r.moment
        (ruled (config_at f.configs.now r.version) l r.outcome) };

    fn decide(&self, _before: &[Line], _earlier: &[Record], line: &Line, rec: &Record) -> bool {
        let index = index_of(self.configs, rec);
        is_ruled(index, self.global_shadow, line, rec)
    }
}

/// Whether each answered check, with the rules that its descriptors find, is the reply of its request by its version.
pub fn replies_by_rule(
    configs: &Configs,
    global_shadow: bool,
    lines: &[Line],
    records: &[Record],
) -> bool
    requires { length records.now ≡ length lines.now }
    ensures { IsTrue result ↔ RuledByRule (config_at configs.now) global_shadow (map line_view lines.now) records.now }
{
    each_line(
        &ByRule {
            configs,
            global_shadow,
        },
        lines,
        records,
    )
}
