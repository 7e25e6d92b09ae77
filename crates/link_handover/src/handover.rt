ghost use Rattle.std.specs.Prelude.{◌≡◌, ◌≤◌, ◌<◌, ◌+◌, [], ◌∷◌, ◌++◌, ℕ, All, IfOk, OnOk, length, vec_len};
ghost use Rattle.rate_types.specs.declared.limits.TheConstants.{MOST_CONNECTIONS, MOST_WORKERS};
ghost use Rattle.rate_types.specs.Sums.{total, times};
ghost use Rattle.crossbeam_channel.specs.Claims.{view, IsSeatAt};
ghost use Rattle.crossbeam_channel.specs.Ends.{sends_on, receives_on};
ghost use Rattle.link_handover.specs.Handover.{AreRising, put_in_all};
ghost use Rattle.link_handover.specs.Journals.{MayPut, HasPut};
ghost use Rattle.link_handover.specs.declared.taken.Taken.{Taken as SpecTaken};

use crate::journal::{InOrder, Journal, Parts, Puts, Rest, Takes};
use crate::passes::QueuePass;
use crate::{PutPass, TakePass, Taken};
use crossbeam_channel::{RuledReceiver, RuledSender, bounded_with};
use rate_types::OutOfMemory;
use std::alloc::Global;
use std::sync::Wait;

/// How many links and end marks the queue holds at most.
const ROOM: usize = 64;

/// A queue of links, which threads share. It keeps both ends while it lives.
#[derive(Drop)]
pub struct Handover<N: Drop> {
    pub(crate) sender: RuledSender<Taken<N>, Journal<N>, InOrder>,
    pub(crate) receiver: RuledReceiver<Taken<N>, Journal<N>, InOrder>,
    ghost one: { receives_on receiver ≡ sends_on sender },
}

impl<N: Drop> Handover<N> {
    ghost use Rattle.link_handover.specs.Passes.{PutsInto, TakesFrom, links_put, marks_put};
    ghost use Rattle.link_handover.specs.Passes.{takers_of, taken_by, numbers_taken, is_end, IsOnceBelow};

    /// A queue with the pass that puts and so many passes that take, 1 to 64. Nothing was put or taken.
    pub fn make(
        alloc: Global,
        workers: u32,
    ) -> Result<(Handover<N>, PutPass<N>, Vec<TakePass<N>>), OutOfMemory>
        requires { (1 ≤ workers) × (workers ≤ MOST_WORKERS) }
        ensures put { IfOk result (λ r. PutsInto r.0 r.1 × (links_put r.1 ≡ []) × (marks_put r.1 ≡ 0)) }
        ensures takers { IfOk result (λ r. takers_of r.1 ≡ workers) }
        ensures count { IfOk result (λ r. vec_len r.2 ≡ workers) }
        ensures takes { IfOk result (λ r. All (λ t. TakesFrom r.0 t × (taken_by t ≡ [])) r.2.items) }
    {
        let (sender, receiver, pass) = bounded_with(alloc, ROOM)?;
        let handover = Handover { sender, receiver };
        let mut put = PutPass { pass, next: 0 };
        let takes = handover.takers(alloc, &mut put, workers)?;
        Ok((handover, put, takes))
    }

    // So many passes that take.
    fn takers(
        &self,
        alloc: Global,
        put: &mut PutPass<N>,
        workers: u32,
    ) -> Result<Vec<TakePass<N>>, OutOfMemory>
        requires put { PutsInto self.now put.old }
        requires first { takers_of put.old ≡ 0 }
        requires few { workers ≤ MOST_WORKERS }
        ensures put { PutsInto self.now put.new }
        ensures same { (links_put put.new ≡ links_put put.old) × (marks_put put.new ≡ marks_put put.old) }
        ensures takers { OnOk result (takers_of put.new ≡ workers) }
        ensures count { IfOk result (λ v. vec_len v ≡ workers) }
        ensures takes { IfOk result (λ v. All (λ t. TakesFrom self.now t × (taken_by t ≡ [])) v.items) }
    {
        let mut takes = Vec::with_capacity(alloc, workers as usize)?;
        for _ in 0..workers {
            let take = self.taker(put);
            takes.push_reserved(take);
        }
        Ok(takes)
    }

    // One pass more that takes.
    fn taker(&self, put: &mut PutPass<N>) -> TakePass<N>
        requires put { PutsInto self.now put.old }
        requires few { takers_of put.old < 64 }
        ensures put { PutsInto self.now put.new }
        ensures same { (links_put put.new ≡ links_put put.old) × (marks_put put.new ≡ marks_put put.old) }
        ensures takers { takers_of put.new ≡ takers_of put.old + 1 }
        ensures take { TakesFrom self.now result × (taken_by result ≡ []) }
    {
        let pass = self.sender.another::<Parts>(&mut put.pass);
        TakePass { pass }
    }

    // Puts this, trying again where it comes back.
    fn send<R: Wait>(&self, rt: &R, pass: &mut QueuePass<N>, mut message: Taken<N>)
        requires pass { IsSeatAt (sends_on self.now.sender) pass.old }
        requires may { MayPut message (view pass.old) }
        ensures pass { IsSeatAt (sends_on self.now.sender) pass.new }
        ensures put { HasPut message (view pass.old) (view pass.new) }
    {
        for _ in rt.forever() {
            match self.sender.send_as::<Puts, R>(rt, pass, message) {
                Ok(()) => return,
                Err(error) => message = error.into_inner(),
            }
        }
        unreachable!()
    }

    /// Puts a link, and answers its number.
    pub fn put<R: Wait>(&self, rt: &R, pass: &mut PutPass<N>, link: N) -> u32
        requires pass { PutsInto self.now pass.old }
        requires open { marks_put pass.old ≡ 0 }
        requires few { length (links_put pass.old) < MOST_CONNECTIONS }
        ensures number { result ≡ length (links_put pass.old) }
        ensures pass { PutsInto self.now pass.new }
        ensures links { links_put pass.new ≡ links_put pass.old ++ link ∷ [] }
        ensures same { (marks_put pass.new ≡ marks_put pass.old) × (takers_of pass.new ≡ takers_of pass.old) }
    {
        let number = pass.next;
        self.send(rt, &mut pass.pass, Taken::Link { number, link });
        pass.next = number + 1;
        number
    }

    /// Puts one end mark.
    pub fn finish<R: Wait>(&self, rt: &R, pass: &mut PutPass<N>)
        requires pass { PutsInto self.now pass.old }
        ensures pass { PutsInto self.now pass.new }
        ensures marks { marks_put pass.new ≡ marks_put pass.old + 1 }
        ensures same { (links_put pass.new ≡ links_put pass.old) × (takers_of pass.new ≡ takers_of pass.old) }
    {
        self.send(rt, &mut pass.pass, Taken::End);
    }

    /// Takes the next link, or an end mark.
    pub fn take<R: Wait>(&self, rt: &R, pass: &mut TakePass<N>) -> Taken<N>
        requires pass { TakesFrom self.now pass.old }
        ensures pass { TakesFrom self.now pass.new }
        ensures taken { taken_by pass.new ≡ taken_by pass.old ++ result ∷ [] }
        ensures rising { AreRising (numbers_taken pass.new) }
    {
        for _ in rt.forever() {
            if let Ok(taken) = self.receiver.recv_as::<Takes, R>(rt, &mut pass.pass) {
                return taken;
            }
        }
        unreachable!()
    }

    /// Ends the handover, for which all passes are given back, each of which took its end mark: what they took is what was put.
    pub fn close(self, put: PutPass<N>, takes: Vec<TakePass<N>>)
        requires put { PutsInto self put }
        requires takes { All (λ t. TakesFrom self t) takes.items }
        requires every { vec_len takes ≡ takers_of put }
        requires ended { (1 ≤ marks_put put) × (total (λ t. total is_end (taken_by t)) takes.items ≡ marks_put put) }
        ensures all { (weight : SpecTaken N → ℕ) → total (λ t. total weight (taken_by t)) takes.items
            ≡ total weight (put_in_all (links_put put) (marks_put put)) }
        ensures once { (n : ℕ) → IsOnceBelow (length (links_put put)) n (total (λ t. times n (numbers_taken t)) takes.items) }
    {
        let PutPass { mut pass, next: _ } = put;
        for take in takes {
            let TakePass { pass: taker } = take;
            self.sender.absorb::<Parts>(&mut pass, taker);
        }
        self.sender.learn_as::<Rest>(&mut pass);
    }
}
