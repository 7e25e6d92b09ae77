ghost use Rattle.std.specs.Prelude.{◌≡◌, ◌<◌, ◌↔◌, ◌++◌, ◌∷◌, [], ℕ, Err, None, IfNone, IfOk, OnOk, OnErr, false, find, option_map};
ghost use Rattle.std.specs.Arc.{arc_value};
ghost use Rattle.quota_bucket.specs.Machine.{asked, new_state};
ghost use Rattle.quota_buckets.specs.Sending.{report_from};
ghost use Rattle.quota_buckets.specs.Tables.{is_stored_as, first_stored};

use crate::answers::{AdvanceFault, Assigned, Decided, NoBucket};
use crate::bucket::Bucket;
use crate::call::Call;
use crate::phase::Phase;
use crate::report::{Report, Reports};
use crate::shared_id::SharedId;
use crate::table::Table;
use http_server::Log;
use quota_bucket::{BucketRules, BucketState, Strategy, Usage};
use quota_settings::{Attributes, BucketId, Settings};
use rate_types::{Millis, OutOfMemory, Text};
use std::alloc::Global;
use std::hash::RandomState;
use std::marker::Model;
use std::sync::Arc;

/// The buckets of one stream to the quota server. Contracts see the stream so far, each bucket with its history.
#[derive(Drop)]
pub struct Buckets {
    alloc: Global,
    settings: Settings,
    up: bool,
    table: Table,
    /// The calls so far, for proofs alone.
    calls: Log<Call, Attributes>,
}

impl Model for Buckets {
    ghost use Rattle.quota_buckets.specs.Streams.{Stream};

    ghost Value = { Stream };

    ghost use Rattle.quota_buckets.specs.Calls.{stream_of};
    ghost use Rattle.quota_buckets.specs.Held.{IsHeld};

    ghost view = { λ b. stream_of b.settings b.calls.items };

    ghost invariant = { λ b. IsHeld b.settings b.up b.table (stream_of b.settings b.calls.items) };
}

impl Buckets {
    ghost use Rattle.quota_buckets.specs.Streams.{new_stream, advanced_to, reports_due, connected, asked_again, answer};
    ghost use Rattle.quota_buckets.specs.Streams.{assigned_in, assignment_result, abandoned_in, requested, decision, found_id};
    ghost use Rattle.quota_buckets.specs.Streams.{phase_in, KeepAllowance};
    ghost use Rattle.quota_buckets.specs.declared.phase.Phase.TheVariants.{None as NoPhase};

    /// No bucket, time 0, the stream up. The hashes of buckets' names go by `seed`. It takes no memory.
    pub fn make(alloc: Global, settings: Settings, seed: RandomState) -> Buckets
        ensures { result ≡ new_stream settings }
    {
        Buckets {
            alloc,
            settings,
            up: true,
            table: Table::new(alloc, seed, Millis::new(0).unwrap()),
            calls: Log::new(),
        }
    }

    /// The domain that each report carries.
    pub fn domain(&self) -> &Text
        ensures { result.now ≡ self.now.settings.domain }
    {
        self.settings.domain()
    }

    /// Brings the stream to a moment, and gives the reports that it sends on the way, in their order. A moment before the
    /// present time is refused with TimeBack.
    pub fn advance(&mut self, at: Millis) -> Result<Reports, AdvanceFault>
        ensures time_back { (last : ℕ) → (result ≡ Err (AdvanceFault.TimeBack last)) ↔ ((at < self.old.time) × (last ≡ self.old.time)) }
        ensures err { OnErr result (self.new ≡ self.old) }
        ensures advanced { OnOk result (self.new ≡ advanced_to at self.old) }
        ensures reports { IfOk result (λ sent. sent ≡ reports_due at self.old) }
    {
        let last = self.table.time();
        if at.get() < last.get() {
            return Err(AdvanceFault::TimeBack { last });
        }
        let Ok(reports) = self.table.advance(self.alloc, at, self.up) else {
            return Err(AdvanceFault::OutOfMemory);
        };
        let no_pairs = Attributes::sorted(Vec::new(self.alloc));
        self.calls = self.calls.and(&Call::Advance(at), &no_pairs);
        Ok(reports)
    }

    /// Says whether the stream is there.
    pub fn set_up(&mut self, up: bool)
        ensures { self.new ≡ connected up self.old }
    {
        self.up = up;
        let no_pairs = Attributes::sorted(Vec::new(self.alloc));
        self.calls = self.calls.and(&Call::SetUp(up), &no_pairs);
    }

    /// The name of the bucket of a request; None exactly where no settings fit its attributes.
    pub fn find(&self, attributes: &Attributes) -> Result<Option<BucketId>, OutOfMemory>
        ensures { IfOk result (λ id. id ≡ found_id attributes.now self.now) }
    {
        let Some(settings) = self.settings.covering(attributes) else {
            return Ok(None);
        };
        let id = settings.id_of(self.alloc, attributes)?;
        Ok(Some(id))
    }

    /// Decides and counts a request, whose bucket is made where it isn't there. A request that no settings fit is allowed
    /// and has no bucket. A bucket that is made sends its first report at once, while the stream is up. No effect of a bucket
    /// has then allowed more than its strategy's number.
    pub fn request(&mut self, attributes: &Attributes) -> Result<Decided, OutOfMemory>
        ensures err { OnErr result (self.new ≡ self.old) }
        ensures counted { OnOk result (self.new ≡ requested attributes.now self.old) }
        ensures decision { IfOk result (λ decided. decided ≡ decision attributes.now self.old) }
        ensures allowance { OnOk result (KeepAllowance self.new) }
    {
        let Some(settings) = self.settings.covering(attributes) else {
            return Ok(Decided {
                bucket: None,
                allowed: true,
                report: None,
            });
        };
        let id = settings.id_of(self.alloc, attributes)?;
        let rules = settings.rules();
        if let Some(allowed) = self.table.ask(&id, self.up) {
            self.calls = self.calls.and(&Call::Request, attributes);
            return Ok(Decided {
                bucket: Some(id),
                allowed,
                report: None,
            });
        }
        let first = ask_first(self.alloc, &mut self.table, &id, rules, self.up)?;
        self.calls = self.calls.and(&Call::Request, attributes);
        Ok(Decided {
            bucket: Some(id),
            allowed: first.allowed,
            report: first.report,
        })
    }

    /// Decides and counts a request of a bucket; None exactly where there is no such bucket, and then nothing changed. No
    /// effect of a bucket has then allowed more than its strategy's number.
    pub fn decide(&mut self, id: &BucketId) -> Option<bool>
        ensures counted { self.new ≡ asked_again id.now self.old }
        ensures answer { result ≡ answer id.now self.old }
        ensures none { (result ≡ None) ↔ (phase_in id.now self.old ≡ NoPhase) }
        ensures unchanged { IfNone result (self.new ≡ self.old) }
        ensures allowance { KeepAllowance self.new }
    {
        let allowed = self.table.ask(id, self.up);
        self.calls = self.calls.and(&Call::Decide, id.pairs());
        allowed
    }

    /// Gives a bucket an assignment from now on, for its lifetime or for ever. NoBucket comes exactly where there is no
    /// such bucket, and then nothing changed.
    pub fn assign(
        &mut self,
        id: &BucketId,
        lifetime: Option<Millis>,
        strategy: Strategy,
    ) -> Result<Assigned, NoBucket>
        ensures assigned { self.new ≡ assigned_in id.now lifetime strategy self.old }
        ensures answer { result ≡ assignment_result id.now strategy self.old }
        ensures none { (result ≡ Err (record {})) ↔ (phase_in id.now self.old ≡ NoPhase) }
        ensures err { OnErr result (self.new ≡ self.old) }
    {
        let call = Call::assign(&lifetime, &strategy);
        let assigned = self.table.assign(id, lifetime, strategy);
        self.calls = self.calls.and(&call, id.pairs());
        assigned.ok_or(NoBucket)
    }

    /// Erases a bucket. NoBucket comes exactly where there is no such bucket, and then nothing changed.
    pub fn abandon(&mut self, id: &BucketId) -> Result<(), NoBucket>
        ensures abandoned { self.new ≡ abandoned_in id.now self.old }
        ensures none { (result ≡ Err (record {})) ↔ (phase_in id.now self.old ≡ NoPhase) }
        ensures err { OnErr result (self.new ≡ self.old) }
    {
        let was_there = self.table.abandon(id);
        self.calls = self.calls.and(&Call::Abandon, id.pairs());
        was_found(was_there)
    }

    /// The phase of a bucket. Whatever was called before, no effect of a bucket has allowed more than its strategy's number.
    pub fn phase(&self, id: &BucketId) -> Phase
        ensures phase { result ≡ phase_in id.now self.now }
        ensures allowance { KeepAllowance self.now }
    {
        self.table.phase(id)
    }
}

/// The answer to the request that makes a bucket, and its first report.
#[derive(Drop)]
struct First {
    allowed: bool,
    report: Option<Report>,
}

/// Makes a bucket with its first request.
fn ask_first(
    alloc: Global,
    table: &mut Table,
    id: &BucketId,
    rules: &Arc<BucketRules>,
    up: bool,
) -> Result<First, OutOfMemory>
    requires { find (is_stored_as id.now) table.old.stored ≡ None }
    ensures made { OnOk result (table.new ≡ record table.old {
      stored = table.old.stored
          ++ first_stored id.now (arc_value rules.now) table.old.time up ∷ [];
    }) }
    ensures allowed { IfOk result (λ first. first.allowed ≡ (asked (arc_value rules.now) table.old.time up (new_state table.old.time)).allowed) }
    ensures report { IfOk result (λ first. first.report
        ≡ option_map (report_from id.now) (asked (arc_value rules.now) table.old.time up (new_state table.old.time)).report) }
    ensures err { OnErr result (table.new ≡ table.old) }
{
    let at = table.time();
    let asked = BucketState::new(at).asked(rules, at, up);
    let report = report_of(alloc, id, asked.report)?;
    let shared = SharedId::copy_of(alloc, id)?;
    let rules = Arc::try_clone(rules)?;
    let bucket = Bucket::of(shared.share()?, rules, asked.state);
    table.add(alloc, shared, bucket)?;
    Ok(First {
        allowed: asked.allowed,
        report,
    })
}

/// The report of a bucket, if there is one.
fn report_of(
    alloc: Global,
    id: &BucketId,
    usage: Option<Usage>,
) -> Result<Option<Report>, OutOfMemory>
    ensures { IfOk result (λ report. report ≡ option_map (report_from id.now) usage) }
{
    match usage {
        Some(usage) => {
            let id = id.copy(alloc)?;
            Ok(Some(Report::of(id, usage)))
        }
        None => Ok(None),
    }
}

/// NoBucket where a bucket wasn't there.
fn was_found(was_there: bool) -> Result<(), NoBucket>
    ensures { (result ≡ Err (record {})) ↔ (was_there ≡ false) }
{
    if was_there { Ok(()) } else { Err(NoBucket) }
}
