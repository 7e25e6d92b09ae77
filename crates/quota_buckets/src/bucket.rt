ghost use Rattle.std.specs.Prelude.{◌≡◌, ◌++◌, OnOk, option_map};
ghost use Rattle.std.specs.Arc.{arc_value};

use crate::answers::Assigned;
use crate::phase::Phase;
use crate::report::Report;
use crate::shared_id::SharedId;
use quota_bucket::{Advance, BucketRules, BucketState, Strategy};
use quota_settings::BucketId;
use rate_types::{Millis, OutOfMemory};
use std::alloc::Global;
use std::marker::Model;
use std::sync::Arc;

/// A bucket that is there, with the state of its history. It shares the rules of its settings.
#[derive(Drop)]
pub struct Bucket {
    id: SharedId,
    rules: Arc<BucketRules>,
    state: BucketState,
}

impl Model for Bucket {
    ghost use Rattle.std.specs.Arc.{arc_value};
    ghost use Rattle.quota_buckets.specs.Tables.{Stored};

    ghost Value = { Stored };

    ghost view = { λ b. record { id = b.id; rules = arc_value b.rules; state = b.state } };
}

impl Bucket {
    ghost use Rattle.quota_bucket.specs.History.{begins_by_assignment};
    ghost use Rattle.quota_bucket.specs.Machine.{is_waiting};
    ghost use Rattle.quota_bucket.specs.Due.{due};
    ghost use Rattle.quota_buckets.specs.Phases.{phase_of};
    ghost use Rattle.quota_buckets.specs.Streams.{assigned_as};
    ghost use Rattle.quota_buckets.specs.Tables.{stored_there, stored_advanced, stored_reports};
    ghost use Rattle.quota_buckets.specs.Tables.{stored_asked, stored_answer, stored_assigned};

    /// A bucket with this state. It takes no memory.
    pub fn of(id: SharedId, rules: Arc<BucketRules>, state: BucketState) -> Bucket
        ensures { result ≡ record { id = id; rules = arc_value rules; state = state } }
    {
        Bucket { id, rules, state }
    }

    /// Its name.
    pub fn id(&self) -> &BucketId
        ensures { result.now ≡ self.now.id }
    {
        self.id.id()
    }

    /// Whether it wasn't erased.
    fn is_there(&self) -> bool
        ensures { result ≡ stored_there self.now }
    {
        !self.state.phase.is_gone()
    }

    /// The next moment after `time` at which it wants work, if there is one.
    pub fn due(&self, time: Millis) -> Option<u64>
        ensures { result ≡ due self.now.rules self.now.state time }
    {
        self.state.due(&self.rules, time)
    }

    /// Whether a request was decided since its last report.
    pub fn waits(&self) -> bool
        ensures { result ≡ is_waiting self.now.state }
    {
        self.state.waits()
    }

    /// Its phase.
    pub fn phase(&self) -> Phase
        ensures { result ≡ phase_of self.now.state.phase }
    {
        Phase::of(&self.state.phase)
    }

    /// Adds the report that an advance sends of it, if it sends one.
    pub fn report(
        &self,
        alloc: Global,
        reports: &mut Vec<Report>,
        advance: &Advance,
    ) -> Result<(), OutOfMemory>
        ensures { OnOk result (reports.new.items ≡ reports.old.items ++ stored_reports advance.now self.now) }
    {
        if let Some(usage) = self.state.advance_report(&self.rules, advance) {
            let id = self.id.id().copy(alloc)?;
            reports.push(Report::of(id, usage))?;
        }
        Ok(())
    }

    /// Brings it to the moment of an advance.
    fn advance(&mut self, advance: &Advance)
        ensures { self.new ≡ stored_advanced advance.now self.old }
    {
        self.state = self.state.advanced(&self.rules, advance);
    }

    /// Decides and counts a request.
    pub fn ask(&mut self, at: Millis, up: bool) -> bool
        ensures stored { self.new ≡ stored_asked at up self.old }
        ensures answer { result ≡ stored_answer at up self.old }
    {
        let asked = self.state.asked(&self.rules, at, up);
        self.state = asked.state;
        asked.allowed
    }

    /// Gives it an assignment.
    pub fn assign(&mut self, at: Millis, lifetime: Option<Millis>, strategy: Strategy) -> Assigned
        ensures stored { self.new ≡ stored_assigned at lifetime strategy self.old }
        ensures answer { result ≡ assigned_as (begins_by_assignment self.old.state.phase strategy) }
    {
        let begins = self.state.phase.begins_by_assignment(&strategy);
        self.state = self.state.assigned(at, lifetime, strategy);
        if begins {
            Assigned::New
        } else {
            Assigned::Renewed
        }
    }
}

ghost use Rattle.quota_buckets.specs.Tables.{slot_advanced, erased_id};

/// Brings the bucket of a slot to the moment of an advance, and takes it out where it is erased.
pub fn advance_slot(slot: &mut Option<Bucket>, advance: &Advance) -> Option<Bucket>
    ensures stored { slot.new ≡ slot_advanced advance.now slot.old }
    ensures erased { option_map (λ stored. stored.id) result ≡ erased_id advance.now slot.old }
{
    let is_erased = match slot {
        Some(bucket) => {
            bucket.advance(advance);
            !bucket.is_there()
        }
        None => false,
    };
    if is_erased { slot.take() } else { None }
}
