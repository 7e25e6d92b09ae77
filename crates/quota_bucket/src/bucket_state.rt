ghost use Rattle.std.specs.Prelude.{◌≡◌, ◌≤◌, ◌∷◌, List};
ghost use Rattle.quota_bucket.specs.Reports.{outlives};

use crate::meter::Meter;
use crate::moments::{reached_report, span};
use crate::rules::BucketRules;
use crate::strategy::Strategy;
use crate::timed_phase::TimedPhase;
use rate_types::Millis;

/// What a report says besides the bucket: its moment, the time since the last one, and what was decided since.
#[derive(Clone, Copy, Debug, PartialEq, Eq)]
pub struct Usage {
    pub at: Millis,
    pub elapsed: Millis,
    pub allowed: u64,
    pub denied: u64,
}

/// What is kept of a bucket's history.
#[derive(Clone, Copy, Debug, PartialEq, Eq)]
pub struct BucketState {
    /// The moment of the request that made the bucket.
    pub first: Millis,
    /// The moment of the last report, before the first one that of the first request.
    pub reported: Millis,
    pub phase: TimedPhase,
    pub meter: Meter,
    /// Requests allowed since the last report. The two counts stop at the greatest u64.
    pub allowed: u64,
    /// Requests denied since the last report.
    pub denied: u64,
}

/// The answer to a request, the report that follows at once, and what is kept then.
#[derive(Clone, Copy)]
pub struct Asked {
    pub allowed: bool,
    pub report: Option<Usage>,
    pub state: BucketState,
}

/// An advance of a stream, from its time to the moment of a line.
#[derive(Clone, Copy)]
pub struct Advance {
    pub from: Millis,
    pub to: Millis,
    /// Whether the stream is up.
    pub up: bool,
}

/// Whether the bucket is still there at a moment, if nothing else happens to it.
#[tactic(auto, unfolding(crate::specs::Reports::outlives))]
fn outlives(rules: &BucketRules, phase: &TimedPhase, moment: Millis) -> bool
    ensures { result ≡ outlives rules.now phase.now moment }
{
    !phase.after_advance(rules, moment).is_gone()
}

impl BucketState {
    ghost use Rattle.quota_bucket.specs.Machine.{new_state, is_waiting, advanced, advance_report, asked, assigned};
    ghost use Rattle.quota_bucket.specs.History.{Event, Advance as AdvanceOf, Request, Assignment};
    ghost use Rattle.quota_bucket.specs.State.{state_after, asked_after, IsStateOf};
    ghost use Rattle.quota_bucket.specs.Reports.{present, report_of_advance};
    ghost use Rattle.quota_bucket.specs.TimeOrder.{IsInOrder};
    ghost use Rattle.quota_bucket.specs.Allowance.{KeepsAllowance};
    ghost use Rattle.quota_bucket.specs.declared.rules.BucketRules.{BucketRules};

    /// What is kept before the request at `at` that makes the bucket.
    pub fn new(at: Millis) -> BucketState
        ensures { result ≡ new_state at }
    {
        BucketState {
            first: at,
            reported: at,
            phase: TimedPhase::Gone,
            meter: Meter::Fresh,
            allowed: 0,
            denied: 0,
        }
    }

    /// Whether a request was decided since the last report.
    pub fn waits(&self) -> bool
        ensures { result ≡ is_waiting self.now }
    {
        self.allowed > 0 || self.denied > 0
    }

    /// The report that an advance sends. Of the state of a history it is the report that the history says.
    pub fn advance_report(&self, rules: &BucketRules, advance: &Advance) -> Option<Usage>
        ensures report { result ≡ advance_report rules.now advance.now self.now }
        ensures history { (history : List Event) → IsStateOf rules.now history self.now → present history ≡ advance.now.from
            → result ≡ report_of_advance rules.now history advance.now.to advance.now.up }
    {
        let moment = reached_report(self.first, rules.reporting.get(), advance.from, advance.to)?;
        if advance.up && self.waits() && outlives(rules, &self.phase, moment) {
            Some(Usage {
                at: moment,
                elapsed: span(self.reported, moment),
                allowed: self.allowed,
                denied: self.denied,
            })
        } else {
            None
        }
    }

    /// What is kept after an advance. The state of a history becomes that of the history with this event.
    pub fn advanced(&self, rules: &BucketRules, advance: &Advance) -> BucketState
        ensures state { result ≡ advanced rules.now advance.now self.now }
        ensures history { (history : List Event) → IsStateOf rules.now history self.now → present history ≡ advance.now.from
            → result ≡ state_after rules.now (AdvanceOf advance.now.to advance.now.up ∷ history) }
    {
        let phase = self.phase.after_advance(rules, advance.to);
        let begins = self.phase.begins_by_expiry(rules, advance.to) || phase.is_gone();
        let meter = if begins { Meter::Fresh } else { self.meter };
        match self.advance_report(rules, advance) {
            Some(usage) => BucketState {
                first: self.first,
                reported: usage.at,
                phase,
                meter,
                allowed: 0,
                denied: 0,
            },
            None => BucketState {
                first: self.first,
                reported: self.reported,
                phase,
                meter,
                allowed: self.allowed,
                denied: self.denied,
            },
        }
    }

    /// Decides and counts a request. By the state of a history it is answered as the whole history says, and no effect has then
    /// allowed more than its strategy's number.
    pub fn asked(&self, rules: &BucketRules, at: Millis, up: bool) -> Asked
        ensures asked { result ≡ asked rules.now at up self.now }
        ensures history { (history : List Event) → IsStateOf rules.now history self.now → present history ≤ at
            → result ≡ asked_after rules.now history at up }
        ensures allowance { (history : List Event) → IsInOrder history → present history ≤ at
            → KeepsAllowance rules.now (Request at up ∷ history) }
    {
        let phase = self.phase.after_request(at);
        let force = self.phase.force_for(rules, at);
        let elapsed = at.get().saturating_sub(force.effect.get());
        let verdict = force.strategy.judge(self.meter, elapsed);
        let (one, other) = if verdict.allowed { (1, 0) } else { (0, 1) };
        if self.phase.is_gone() {
            let usage = Usage {
                at,
                elapsed: span(at, at),
                allowed: one,
                denied: other,
            };
            return Asked {
                allowed: verdict.allowed,
                report: if up { Some(usage) } else { None },
                state: BucketState {
                    first: at,
                    reported: at,
                    phase,
                    meter: verdict.meter,
                    allowed: if up { 0 } else { one },
                    denied: if up { 0 } else { other },
                },
            };
        }
        Asked {
            allowed: verdict.allowed,
            report: None,
            state: BucketState {
                first: self.first,
                reported: self.reported,
                phase,
                meter: verdict.meter,
                allowed: self.allowed.saturating_add(one),
                denied: self.denied.saturating_add(other),
            },
        }
    }

    /// What is kept after an assignment at `at`, which lasts for its lifetime or for ever. The state of a history becomes that
    /// of the history with this event.
    pub fn assigned(&self, at: Millis, lifetime: Option<Millis>, strategy: Strategy) -> BucketState
        ensures state { result ≡ assigned at lifetime strategy self.now }
        ensures history { (rules : BucketRules) (history : List Event) → IsStateOf rules history self.now
            → result ≡ state_after rules (Assignment at lifetime strategy ∷ history) }
    {
        let begins = self.phase.begins_by_assignment(&strategy);
        BucketState {
            first: self.first,
            reported: self.reported,
            phase: self.phase.after_assignment(at, lifetime, strategy),
            meter: if begins { Meter::Fresh } else { self.meter },
            allowed: self.allowed,
            denied: self.denied,
        }
    }
}
