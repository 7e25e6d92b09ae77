ghost use Rattle.std.specs.Prelude.{◌≡◌};
ghost use Rattle.rate_limiter.specs.Pinned.{fault_of, refused_after};

use crate::plan::plan;
use crate::{Limiter, Pass};
use counter_cells::CellNaming;
use counter_directory::AcquireFault;
use rate_types::{Request, Seconds};
use rls_core::{CheckFault, Reply};
use std::alloc::Global;
use std::sync::Wait;

impl<N: CellNaming> Limiter<N> {
    ghost use Rattle.std.specs.Prelude.{◌≡◌, ◌≤◌, length, OnErr};
    ghost use Rattle.rate_types.specs.declared.limits.TheConstants.{MOST_DESCRIPTORS};
    ghost use Rattle.rate_limiter.specs.Passes.{bounds_of};
    ghost use Rattle.rate_limiter.specs.Refusals.{Checks};
    ghost use Rattle.rate_limiter.specs.Turns.{TakesNoTurn, TriesNoPin};
    ghost use Rattle.rate_limiter.specs.Replied.{replied};
    ghost use Rattle.rate_limiter.specs.Used.{ChecksKnown};

    /// Answers a request in the windows of a moment that is the pass's afterwards, and no earlier than `now`. It may wait for
    /// other calls on this limiter. It asks the directory for nothing where the pass knows all counters of the request and their
    /// cells are theirs still. It tries no pin where the pass knows each to be above its limit, and each is to be hit.
    pub fn check<R: Wait>(
        &self,
        rt: &R,
        alloc: Global,
        pass: &mut Pass<N>,
        request: &Request,
        now: Seconds,
    ) -> Result<Reply, CheckFault>
        requires pass { pass.old.limiter ≡ self.now.id }
        ensures pass { pass.new.limiter ≡ self.now.id }
        ensures few { length request.now.descriptors ≤ MOST_DESCRIPTORS }
        ensures step { Checks (bounds_of N.setup.cells self.now) self.now request.now now pass.old result pass.new }
        ensures known { ChecksKnown request.now pass.old result pass.new }
        ensures turns { TakesNoTurn request.now pass.old pass.new }
        ensures pins { TriesNoPin request.now pass.old pass.new }
    {
        let mut reply = Reply::new();
        self.check_into(rt, alloc, pass, request, now, &mut reply)?;
        Ok(reply)
    }

    /// Answers a request as [`Limiter::check`] does, and writes the reply where it is answered. The reply is lent, so that a caller with
    /// many checks makes and moves none for each. A refused check leaves it as it was.
    pub fn check_into<R: Wait>(
        &self,
        rt: &R,
        alloc: Global,
        pass: &mut Pass<N>,
        request: &Request,
        now: Seconds,
        reply: &mut Reply,
    ) -> Result<(), CheckFault>
        requires pass { pass.old.limiter ≡ self.now.id }
        ensures pass { pass.new.limiter ≡ self.now.id }
        ensures few { length request.now.descriptors ≤ MOST_DESCRIPTORS }
        ensures step { Checks (bounds_of N.setup.cells self.now) self.now request.now now pass.old (replied result reply.new) pass.new }
        ensures known { ChecksKnown request.now pass.old (replied result reply.new) pass.new }
        ensures turns { TakesNoTurn request.now pass.old pass.new }
        ensures pins { TriesNoPin request.now pass.old pass.new }
        ensures kept { OnErr result (reply.new ≡ reply.old) }
    {
        let descriptors = request.descriptors();
        self.tick(pass, now);
        self.renew(rt, pass)?;
        let scratch = &mut *pass.scratch;
        let index = pass.version.index();
        plan(index, &mut pass.counters, request, descriptors, scratch);
        match self.hold(rt, alloc, &mut pass.counters, request, scratch) {
            Err(fault) => Err(refuse(&mut pass.refused, fault)),
            Ok(()) => {
                self.answer(
                    &mut pass.counters,
                    pass.version.version(),
                    request,
                    scratch.asked.as_slice(),
                    scratch.acquired.spots.as_slice(),
                    reply,
                );
                Ok(())
            }
        }
    }
}

// The fault of a check whose counters aren't pinned. A refused check counts, but for want of memory.
fn refuse(refused: &mut u64, fault: AcquireFault) -> CheckFault
    ensures fault { result ≡ fault_of fault }
    ensures refused { refused.new ≡ refused_after fault refused.old }
{
    match fault {
        AcquireFault::OutOfMemory => CheckFault::OutOfMemory,
        AcquireFault::ClaimsSpent { claims, wanted } => {
            *refused = refused.saturating_add(1);
            CheckFault::ClaimsSpent { claims, wanted }
        }
        AcquireFault::CountersFull {
            moment,
            live,
            held,
            wanted,
        } => {
            *refused = refused.saturating_add(1);
            CheckFault::CountersFull {
                moment,
                live,
                held,
                wanted,
            }
        }
    }
}
