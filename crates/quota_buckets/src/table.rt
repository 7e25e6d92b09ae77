ghost use Rattle.std.specs.Prelude.{◌≡◌, ◌≤◌, ◌++◌, ◌∷◌, [], None, OnOk, OnErr, IfOk, option_map, find, is_some, false};
ghost use Rattle.quota_bucket.specs.History.{is_gone, begins_by_assignment};

use crate::answers::Assigned;
use crate::bucket::Bucket;
use crate::gaps::make_room;
use crate::phase::Phase;
use crate::report::{Reports, order};
use crate::shared_id::SharedId;
use crate::slots::{advance_each, plan_each, reports_of};
use agenda::Agenda;
use quota_bucket::{Advance, Strategy};
use quota_settings::BucketId;
use rate_types::{Millis, OutOfMemory};
use std::alloc::Global;
use std::collections::HashMap;
use std::hash::RandomState;
use std::marker::Model;

/// The buckets of a stream at its time, each in a slot, in order of making, with an index of their names and an agenda of
/// the moments at which each slot next wants work.
#[derive(Drop)]
pub struct Table {
    slots: Vec<Option<Bucket>>,
    index: HashMap<SharedId, usize, RandomState>,
    agenda: Agenda,
    time: Millis,
}

impl Model for Table {
    ghost use Rattle.std.specs.HashMap.{get};
    ghost use Rattle.quota_settings.specs.Pairs.{same_pairs};
    ghost use Rattle.quota_buckets.specs.Tables.{Table as Stored, held};
    ghost use Rattle.quota_buckets.specs.Slots.{IsTable};

    ghost Value = { Stored };

    ghost view = { λ t. record { time = t.time; stored = held t.slots.items } };

    ghost invariant = { λ t. IsTable t.time t.agenda (get same_pairs t.index) t.slots.items };
}

impl Table {
    ghost use Rattle.quota_buckets.specs.FirstMatch.{at_first, without_first};
    ghost use Rattle.quota_buckets.specs.Streams.{assigned_as};
    ghost use Rattle.quota_buckets.specs.Tables.{is_stored_as, stored_asked, stored_answer, stored_assigned};
    ghost use Rattle.quota_buckets.specs.Tables.{slot_phase, advance_of, table_advanced, table_reports};

    /// No bucket, at this time. The hashes of names go by `seed`. It takes no memory.
    #[tactic(auto, using(crate::proofs::Tabling::empty_table))]
    pub fn new(alloc: Global, seed: RandomState, time: Millis) -> Table
        ensures { result ≡ record { time = time; stored = [] } }
    {
        Table {
            slots: Vec::new(alloc),
            index: HashMap::with_hasher(alloc, seed),
            agenda: Agenda::empty(alloc),
            time,
        }
    }

    /// The time of the stream.
    pub fn time(&self) -> Millis
        ensures { result ≡ self.now.time }
    {
        self.time
    }

    /// The phase of a name.
    pub fn phase(&self, id: &BucketId) -> Phase
        ensures { result ≡ slot_phase (find (is_stored_as id.now) self.now.stored) }
    {
        let Some(place) = self.index.get(id).copied() else {
            return Phase::None;
        };
        match &self.slots[place] {
            Some(bucket) => bucket.phase(),
            None => Phase::None,
        }
    }

    /// Decides and counts a request of a bucket, if it is there.
    pub fn ask(&mut self, id: &BucketId, up: bool) -> Option<bool>
        ensures stored { self.new ≡ record self.old {
          stored =
              at_first (is_stored_as id.now) (stored_asked self.old.time up) self.old.stored;
        } }
        ensures answer { result ≡ option_map (stored_answer self.old.time up) (find (is_stored_as id.now) self.old.stored) }
    {
        let place = self.index.get(id).copied()?;
        let Some(bucket) = &mut self.slots[place] else {
            return None;
        };
        let waited = bucket.waits();
        let allowed = bucket.ask(self.time, up);
        if waited {
            return Some(allowed);
        }
        let due = bucket.due(self.time);
        self.agenda.set(place, due);
        Some(allowed)
    }

    /// Gives a bucket an assignment, if it is there.
    pub fn assign(
        &mut self,
        id: &BucketId,
        lifetime: Option<Millis>,
        strategy: Strategy,
    ) -> Option<Assigned>
        ensures stored { self.new ≡ record self.old {
          stored = at_first (is_stored_as id.now) (stored_assigned self.old.time lifetime strategy) self.old.stored;
        } }
        ensures answer { result ≡ option_map (λ stored. assigned_as (begins_by_assignment stored.state.phase strategy))
            (find (is_stored_as id.now) self.old.stored) }
    {
        let place = self.index.get(id).copied()?;
        let Some(bucket) = &mut self.slots[place] else {
            return None;
        };
        let assigned = bucket.assign(self.time, lifetime, strategy);
        let due = bucket.due(self.time);
        self.agenda.set(place, due);
        Some(assigned)
    }

    /// Erases a bucket, and tells whether it was there.
    pub fn abandon(&mut self, id: &BucketId) -> bool
        ensures stored { self.new ≡ record self.old { stored = without_first (is_stored_as id.now) self.old.stored } }
        ensures answer { result ≡ is_some (find (is_stored_as id.now) self.old.stored) }
    {
        let Some(place) = self.index.remove(id) else {
            return false;
        };
        self.slots[place] = None;
        self.agenda.set(place, None);
        true
    }

    /// Adds a bucket behind the others, under its name.
    pub fn add(&mut self, alloc: Global, id: SharedId, bucket: Bucket) -> Result<(), OutOfMemory>
        requires name { id ≡ bucket.id }
        requires new { find (is_stored_as bucket.id) self.old.stored ≡ None }
        requires there { is_gone bucket.state.phase ≡ false }
        ensures added { OnOk result (self.new ≡ record self.old { stored = self.old.stored ++ bucket ∷ [] }) }
        ensures err { OnErr result (self.new ≡ self.old) }
    {
        make_room(
            alloc,
            &mut self.slots,
            &mut self.index,
            &mut self.agenda,
            self.time,
        )?;
        let place = self.slots.len();
        self.slots.reserve(1)?;
        self.index.insert(id, place)?;
        self.agenda.set(place, bucket.due(self.time));
        self.slots.push_reserved(Some(bucket));
        Ok(())
    }

    /// Brings the buckets to a later moment, and gives the reports that are sent on the way.
    pub fn advance(&mut self, alloc: Global, to: Millis, up: bool) -> Result<Reports, OutOfMemory>
        requires { self.old.time ≤ to }
        ensures advanced { OnOk result (self.new ≡ table_advanced (advance_of self.old to up) self.old) }
        ensures reports { IfOk result (λ sent. sent ≡ table_reports (advance_of self.old to up) self.old) }
        ensures err { OnErr result (self.new ≡ self.old) }
    {
        let advance = Advance {
            from: self.time,
            to,
            up,
        };
        let places = self.agenda.reached(alloc, to.get())?;
        let mut reports = reports_of(alloc, &self.slots, &places, &advance)?;
        order(&mut reports)?;
        advance_each(&mut self.slots, &mut self.index, &places, &advance);
        plan_each(&mut self.agenda, &self.slots, &places, to);
        self.time = to;
        Ok(Reports::of(reports))
    }
}
