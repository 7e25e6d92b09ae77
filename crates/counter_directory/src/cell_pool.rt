// The claims, and the pool of cells.
ghost use Rattle.std.specs.Prelude.{◌≡◌, ℕ, ◌+◌, ◌-◌, ◌≤◌, ◌<◌, ◌^◌, ◌++◌, ◌∷◌, [], length, vec_len, vec_capacity, OnOk, IfOk};
ghost use Rattle.rate_types.specs.declared.limits.TheConstants.{MOST_CELLS, MOST_CLAIM_NUMBERS, MOST_PINS};
ghost use Rattle.rate_types.specs.Units.{unit_rank};
ghost use Rattle.window_keys.specs.Window.{window_start};
ghost use Rattle.window_keys.specs.Counter.{window_end_of};
ghost use Rattle.counter_directory.specs.Claims.{IsLawfulClaims, claims_of};
ghost use Rattle.counter_directory.specs.Pool.{IsLawfulPool, BindsLast, spot};
ghost use Rattle.counter_directory.specs.Claims.{live_below};
ghost use Rattle.counter_directory.specs.Windows.{RingWindows, ExpiredBelow, FitsRing, KeepsFits, AreRoomy};

use crate::claim::{Claim, Claims};
use crate::keys::place_of;
use crate::ring::{Ring, rings};
use counter_cells::Spot;
use rate_types::limits::MOST_PINS;
use rate_types::{CounterKey, CounterName, OutOfMemory, Seconds};
use std::alloc::Global;

/// The claims, and the pool of cells. Each cell that was ever taken is in exactly one list: in a ring, or expired, held or
/// reserved.
#[derive(Drop)]
pub(crate) struct CellPool {
    pub claims: Claims,
    /// One for each unit: the cells of the newest window in which one was bound.
    pub rings: Vec<Ring>,
    /// The cells whose windows have ended.
    pub expired: Vec<u32>,
    /// The expired cells that were found pinned, and are tried last.
    pub held: Vec<u32>,
    /// The cells that are taken and not yet bound to a counter, each with the number of its claim to be.
    pub reserved: Vec<Spot>,
    /// The first cell that was never taken.
    pub fresh: u32,
    /// The number of the next claim.
    pub next_claim: u64,
    /// The moment of the last turn.
    pub last: Seconds,
    /// How many cells there are.
    pub cells: u32,
    /// How many claims there may be at most.
    pub most: u64,
    pub ghost cells_lawful: { IsLawfulPool cells last fresh next_claim claims rings.items expired.items held.items reserved.items },
    pub ghost lawful: { IsLawfulClaims cells most claims },
    pub ghost four: { vec_len rings ≡ 4 },
    pub ghost next_claim_is: { next_claim ≡ length claims + vec_len reserved },
    pub ghost few: { next_claim ≤ most },
    pub ghost room: { (cells ≤ vec_capacity expired) × (cells ≤ vec_capacity held) × (MOST_PINS ≤ vec_capacity reserved)
        × AreRoomy cells rings.items },
    pub ghost windows: { RingWindows last rings.items },
    pub ghost sizes: { (cells ≤ MOST_CELLS) × (most ≤ MOST_CLAIM_NUMBERS) },
}

impl CellPool {
    ghost use Rattle.counter_directory.specs.Keeps.{KeepsClaims, KeepsNumbers};

    /// No claim, and no cell taken.
    pub fn make(alloc: Global, cells: u32, most: u64) -> Result<CellPool, OutOfMemory>
        requires { (cells ≤ MOST_CELLS) × (most ≤ MOST_CLAIM_NUMBERS) }
        ensures { IfOk result (λ s. (s.cells ≡ cells) × (s.most ≡ most) × (s.next_claim ≡ 0) × (s.claims ≡ [])
            × (s.reserved.items ≡ []) × (s.last ≡ 0)) }
    {
        let rings = rings(alloc, cells)?;
        let expired = Vec::with_capacity(alloc, cells as usize)?;
        let held = Vec::with_capacity(alloc, cells as usize)?;
        let reserved = Vec::with_capacity(alloc, MOST_PINS as usize)?;
        Ok(CellPool {
            claims: Claims::new(),
            rings,
            expired,
            held,
            reserved,
            fresh: 0,
            next_claim: 0,
            last: Seconds::capped(0),
            cells,
            most,
        })
    }

    /// Reserves the last expired cell under the number of the next claim.
    pub fn reserve_expired(&mut self)
        requires some { 0 < vec_len self.old.expired }
        requires room { vec_len self.old.reserved < MOST_PINS }
        requires next_claim { self.old.next_claim < self.old.most }
        ensures keeps { KeepsClaims self.old self.new }
        ensures same { (self.new.held ≡ self.old.held) × (self.new.fresh ≡ self.old.fresh) }
        ensures reserved { (k : ℕ) × (self.old.expired.items ≡ self.new.expired.items ++ k ∷ [])
            × (self.new.reserved.items ≡ self.old.reserved.items ++ spot k self.old.next_claim ∷ []) }
        ensures next_claim { self.new.next_claim ≡ self.old.next_claim + 1 }
        ensures lens { (vec_len self.new.reserved ≡ vec_len self.old.reserved + 1)
            × (vec_len self.new.expired + 1 ≡ vec_len self.old.expired) }
    {
        if let Some(cell) = self.expired.pop() {
            self.reserved.push_reserved(Spot {
                cell,
                claim: self.next_claim,
            });
            self.next_claim += 1;
        }
    }

    /// The last expired cell was found pinned.
    pub fn hold_expired(&mut self)
        requires some { 0 < vec_len self.old.expired }
        ensures keeps { KeepsClaims self.old self.new }
        ensures numbers { KeepsNumbers self.old self.new }
        ensures same { self.new.reserved ≡ self.old.reserved }
        ensures held { (k : ℕ) × (self.old.expired.items ≡ self.new.expired.items ++ k ∷ [])
            × (self.new.held.items ≡ self.old.held.items ++ k ∷ []) }
        ensures lens { (vec_len self.new.held ≡ vec_len self.old.held + 1) × (vec_len self.new.expired + 1 ≡ vec_len self.old.expired) }
    {
        if let Some(cell) = self.expired.pop() {
            self.held.push_reserved(cell);
        }
    }

    /// Reserves the first cell that was never taken, under the number of the next claim.
    pub fn reserve_fresh(&mut self)
        requires some { self.old.fresh < self.old.cells }
        requires room { vec_len self.old.reserved < MOST_PINS }
        requires next_claim { self.old.next_claim < self.old.most }
        ensures keeps { KeepsClaims self.old self.new }
        ensures same { (self.new.expired ≡ self.old.expired) × (self.new.held ≡ self.old.held) × (self.new.fresh ≡ self.old.fresh + 1) }
        ensures reserved { self.new.reserved.items ≡ self.old.reserved.items ++ spot self.old.fresh self.old.next_claim ∷ [] }
        ensures next_claim { self.new.next_claim ≡ self.old.next_claim + 1 }
        ensures len { vec_len self.new.reserved ≡ vec_len self.old.reserved + 1 }
    {
        self.reserved.push_reserved(Spot {
            cell: self.fresh,
            claim: self.next_claim,
        });
        self.fresh += 1;
        self.next_claim += 1;
    }

    /// Raises the moment, and moves the cells of windows that have then ended from their rings to the expired ones.
    pub fn expire(&mut self, moment: Seconds) -> Result<(), OutOfMemory>
        requires { self.old.last ≤ moment }
        ensures numbers { KeepsNumbers self.old self.new }
        ensures same { (self.new.claims ≡ self.old.claims) × (self.new.reserved ≡ self.old.reserved)
            × (self.new.held ≡ self.old.held) }
        ensures last { self.new.last ≡ moment }
        ensures expired { OnOk result (ExpiredBelow 4 moment self.new.rings.items) }
    {
        self.last = moment;
        for unit in 0..4 {
            self.expire_ring(unit)?;
        }
        Ok(())
    }

    // Empties the ring of a unit where its window has ended.
    fn expire_ring(&mut self, unit: usize) -> Result<(), OutOfMemory>
        requires unit { unit < 4 }
        requires before { ExpiredBelow unit self.old.last self.old.rings.items }
        ensures numbers { KeepsNumbers self.old self.new }
        ensures same { (self.new.claims ≡ self.old.claims) × (self.new.reserved ≡ self.old.reserved) × (self.new.held ≡ self.old.held)
            × (self.new.last ≡ self.old.last) }
        ensures expired { OnOk result (ExpiredBelow (unit + 1) self.old.last self.new.rings.items) }
    {
        let last = self.last.get();
        let ring = &mut self.rings[unit];
        if ring.end <= last {
            self.expired.append(&mut ring.cells)?;
        }
        Ok(())
    }

    /// How many claims there are.
    pub fn claims_made(&self) -> u64
        ensures { result ≡ length self.now.claims }
    {
        self.next_claim - self.reserved.len() as u64
    }

    /// Binds the counter to the cell that was reserved last, and gives its name back.
    pub fn bind_reserved(&mut self, key: CounterKey) -> CounterName
        requires reserved { 0 < vec_len self.old.reserved }
        requires counter { claims_of key self.old.claims ≡ 0 }
        requires window { key.start ≡ window_start key.name.unit self.old.last }
        requires ring { FitsRing (unit_rank key.name.unit) (window_end_of key) self.old.rings.items }
        ensures name { result ≡ key.name }
        ensures claims { BindsLast self.old.reserved.items self.new.reserved.items self.old.claims self.new.claims key
            self.old.last }
        ensures rings { KeepsFits (unit_rank key.name.unit) (window_end_of key) self.old.rings.items self.new.rings.items }
        ensures lens { (vec_len self.new.reserved + 1 ≡ vec_len self.old.reserved) × (length self.new.claims ≡ length self.old.claims + 1) }
        ensures numbers { KeepsNumbers self.old self.new }
        ensures same { (self.new.expired ≡ self.old.expired) × (self.new.held ≡ self.old.held) × (self.new.last ≡ self.old.last) }
    {
        let Some(spot) = self.reserved.pop() else {
            unreachable!()
        };
        let ring = &mut self.rings[place_of(&key)];
        ring.end = window_keys::end_of(&key);
        ring.cells.push_reserved(spot.cell);
        let claim = Claim {
            key,
            cell: spot.cell,
            claim: spot.claim,
            moment: self.last,
        };
        self.claims.add(&claim);
        let Claim {
            key,
            cell: _,
            claim: _,
            moment: _,
        } = claim;
        let CounterKey { name, start: _ } = key;
        name
    }

    /// How many cells have windows that haven't ended.
    pub fn live(&self) -> u32
        requires expired { ExpiredBelow 4 self.now.last self.now.rings.items }
        ensures live { result ≡ live_below self.now.cells self.now.last self.now.claims }
        ensures all { result + vec_len self.now.expired + vec_len self.now.held + vec_len self.now.reserved ≡ self.now.fresh }
    {
        let rest = self.expired.len() + self.held.len() + self.reserved.len();
        self.fresh - rest as u32
    }

    /// The held cells are tried again.
    pub fn retry_held(&mut self)
        requires { vec_len self.old.expired ≡ 0 }
        ensures keeps { KeepsClaims self.old self.new }
        ensures numbers { KeepsNumbers self.old self.new }
        ensures same { self.new.reserved ≡ self.old.reserved }
        ensures held { (self.new.expired.items ≡ self.old.held.items) × (self.new.held.items ≡ []) }
    {
        std::mem::swap(&mut self.expired, &mut self.held);
    }
}
