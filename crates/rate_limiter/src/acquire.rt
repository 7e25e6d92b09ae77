// The counters of a check are pinned by the directory, and noted.
ghost use Rattle.std.specs.Prelude.{◌≡◌, ◌≤◌, ◌<◌, [], All, OnOk, OnErr, IfErr, length};
ghost use Rattle.rate_types.specs.declared.limits.TheConstants.{MOST_PINS};
ghost use Rattle.counter_directory.specs.Keys.{keys_at};
ghost use Rattle.counter_directory.specs.Spots.{Bound, LeavesAllButPins};
ghost use Rattle.counter_directory.specs.declared.acquired.AcquireFault.TheVariants.{OutOfMemory as NoMemory};
ghost use Rattle.rate_limiter.specs.Counters.{Holds};
ghost use Rattle.rate_limiter.specs.Known.{pins_under};
ghost use Rattle.rate_limiter.specs.Names.{name_keys};
ghost use Rattle.rate_limiter.specs.Sought.{AreNoted};
ghost use Rattle.rate_limiter.specs.Used.{HasUsed};

use crate::Limiter;
use crate::names::{names_of, one_name};
use crate::pass_counters::PassCounters;
use counter_cells::{CellNaming, Cells, Spot};
use counter_directory::{AcquireFault, Acquired, SoughtName};
use rate_types::{OutOfMemory, Request};
use rule_lookup::Found;
use std::alloc::Global;
use std::sync::Wait;

// Notes the counters that are pinned on the spots at the pass's moment. Where there is no memory, those before are noted.
fn note_each<N: CellNaming>(
    counters: &mut PassCounters<N>,
    names: &[SoughtName<'_>],
    spots: &[Spot],
) -> Result<(), OutOfMemory>
    requires few { length names.now ≤ MOST_PINS }
    requires count { length spots.now ≡ length names.now }
    requires within { All (λ s. s.cell < N.setup.cells) spots.now }
    requires bound { Bound counters.old.claims.claims.known (keys_at counters.old.cells.moment names.now) spots.now }
    requires had { All (λ s. 1 ≤ pins_under s.cell s.claim counters.old.cells.pairs) spots.now }
    ensures rest { counters.new ≡ record counters.old { known = counters.new.known } }
    ensures uses { HasUsed [] (name_keys counters.old.cells.moment names.now) counters.old.known counters.new.known }
    ensures noted { OnOk result (AreNoted names.now counters.old.cells.moment counters.new.known) }
{
    'names: for place in 0..names.len() {
        counters.note(&names[place], spots[place])?;
    }
    Ok(())
}

// Notes the counters that are pinned on the spots, so that the pass knows each then. Where there is no memory, the pins are given back.
fn note_pinned<N: CellNaming>(
    cells: &Cells<N>,
    counters: &mut PassCounters<N>,
    names: &[SoughtName<'_>],
    spots: &[Spot],
) -> Result<(), AcquireFault>
    requires few { length names.now ≤ MOST_PINS }
    requires count { length spots.now ≡ length names.now }
    requires holds { Holds N.setup.cells spots.now counters.old.cells }
    requires bound { Bound counters.old.claims.claims.known (keys_at counters.old.cells.moment names.now) spots.now }
    requires had { All (λ s. 1 ≤ pins_under s.cell s.claim counters.old.cells.pairs) spots.now }
    ensures claims { counters.new.claims ≡ counters.old.claims }
    ensures left { LeavesAllButPins counters.old.cells counters.new.cells }
    ensures same { OnOk result (counters.new.cells ≡ counters.old.cells) }
    ensures uses { HasUsed [] (name_keys counters.old.cells.moment names.now) counters.old.known counters.new.known }
    ensures noted { OnOk result (AreNoted names.now counters.old.cells.moment counters.new.known) }
    ensures fault { IfErr result (λ f. f ≡ NoMemory) }
    ensures bare { OnErr result (counters.new.cells.good ≡ []) }
{
    match note_each(counters, names, spots) {
        Ok(()) => Ok(()),
        Err(OutOfMemory) => {
            counters.give_back(cells, spots);
            Err(AcquireFault::OutOfMemory)
        }
    }
}

impl<N: CellNaming> Limiter<N> {
    ghost use Rattle.std.specs.Prelude.{◌≡◌, ◌≤◌, [], OnOk, IfErr, length};
    ghost use Rattle.rate_types.specs.declared.limits.TheConstants.{MOST_PINS};
    ghost use Rattle.rate_limiter.specs.Passes.{bounds_of};
    ghost use Rattle.rate_limiter.specs.Counters.{Holds};
    ghost use Rattle.rate_limiter.specs.Known.{AreClaimedOnce};
    ghost use Rattle.rate_limiter.specs.Pinned.{HasPins, HasNoPins};
    ghost use Rattle.rate_limiter.specs.Names.{names_under, name_keys};
    ghost use Rattle.rate_limiter.specs.Sought.{AreNoted};
    ghost use Rattle.rate_limiter.specs.Used.{HasUsed};

    // Pins the counters of the names by the directory, and notes them, so that the pass knows each then.
    fn acquire_names<R: Wait>(
        &self,
        rt: &R,
        counters: &mut PassCounters<N>,
        names: &[SoughtName<'_>],
        acquired: &mut Acquired,
    ) -> Result<(), AcquireFault>
        requires pass { counters.old.claims.list_id ≡ self.now.id.claims }
        requires bare { counters.old.cells.good ≡ [] }
        requires names { (1 ≤ length names.now) × (length names.now ≤ MOST_PINS) }
        ensures pass { counters.new.claims.list_id ≡ self.now.id.claims }
        ensures once { AreClaimedOnce counters.new.claims.claims.known }
        ensures uses { HasUsed [] (name_keys counters.new.cells.moment names.now) counters.old.known counters.new.known }
        ensures others { length counters.old.cells.others ≤ length counters.new.cells.others }
        ensures holds { OnOk result (Holds N.setup.cells acquired.new.spots.items counters.new.cells) }
        ensures noted { OnOk result (AreNoted names.now counters.new.cells.moment counters.new.known) }
        ensures pinned { OnOk result (HasPins names.now acquired.new.spots.items counters.old.cells counters.new.cells
            counters.old.claims.claims counters.new.claims.claims) }
        ensures refused { IfErr result (λ f. HasNoPins (bounds_of N.setup.cells self.now) names.now f counters.old.cells
            counters.new.cells counters.old.claims.claims counters.new.claims.claims) }
    {
        let directory = &self.directory;
        let cells = &self.cells;
        match directory.acquire(
            rt,
            &mut counters.claims,
            cells,
            &mut counters.cells,
            names,
            acquired,
        ) {
            Err(fault) => Err(fault),
            Ok(()) => note_pinned(cells, counters, names, acquired.spots.as_slice()),
        }
    }

    /// Pins the counters of the descriptors that have a limit, of which there are some, by the directory, and notes them. The name of a
    /// counter that is alone needs no memory.
    pub(crate) fn acquire<R: Wait>(
        &self,
        rt: &R,
        alloc: Global,
        counters: &mut PassCounters<N>,
        request: &Request,
        rules: &[Found],
        acquired: &mut Acquired,
    ) -> Result<(), AcquireFault>
        requires pass { counters.old.claims.list_id ≡ self.now.id.claims }
        requires bare { counters.old.cells.good ≡ [] }
        requires rules { length rules.now ≡ length request.now.descriptors }
        requires some { 1 ≤ length (names_under request.now request.now.descriptors rules.now) }
        ensures pass { counters.new.claims.list_id ≡ self.now.id.claims }
        ensures once { OnOk result (AreClaimedOnce counters.new.claims.claims.known) }
        ensures uses { HasUsed [] (name_keys counters.new.cells.moment (names_under request.now request.now.descriptors rules.now))
            counters.old.known counters.new.known }
        ensures others { length counters.old.cells.others ≤ length counters.new.cells.others }
        ensures holds { OnOk result (Holds N.setup.cells acquired.new.spots.items counters.new.cells) }
        ensures noted { OnOk result
            (AreNoted (names_under request.now request.now.descriptors rules.now) counters.new.cells.moment counters.new.known) }
        ensures pinned { OnOk result (HasPins (names_under request.now request.now.descriptors rules.now) acquired.new.spots.items
            counters.old.cells counters.new.cells counters.old.claims.claims counters.new.claims.claims) }
        ensures refused { IfErr result (λ f. HasNoPins (bounds_of N.setup.cells self.now)
            (names_under request.now request.now.descriptors rules.now) f counters.old.cells counters.new.cells
            counters.old.claims.claims counters.new.claims.claims) }
    {
        let descriptors = request.descriptors();
        if let Some(name) = one_name(request, descriptors, rules) {
            let names = [name];
            return self.acquire_names(rt, counters, &names, acquired);
        }
        let Ok(names) = names_of(alloc, request, descriptors, rules) else {
            return Err(AcquireFault::OutOfMemory);
        };
        self.acquire_names(rt, counters, names.as_slice(), acquired)
    }
}
