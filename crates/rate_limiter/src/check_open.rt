ghost use Rattle.std.specs.Prelude.{◌≡◌};

use crate::hold::hold_known;
use crate::plan::plan;
use crate::{Limiter, NotOpen, Pass};
use counter_cells::CellNaming;
use rate_types::{Request, Seconds};
use rls_core::Reply;

impl<N: CellNaming> Limiter<N> {
    ghost use Rattle.std.specs.Prelude.{◌≡◌, ◌≤◌, length, OnErr};
    ghost use Rattle.rate_types.specs.declared.limits.TheConstants.{MOST_DESCRIPTORS};
    ghost use Rattle.rate_limiter.specs.Opens.{Opens};
    ghost use Rattle.rate_limiter.specs.Turns.{TriesNoPin};
    ghost use Rattle.rate_limiter.specs.Replied.{replied};
    ghost use Rattle.rate_limiter.specs.Used.{UsesKnown};

    /// Answers a request as [`Limiter::check`] does, where no newer version is installed, the pass knows each counter of the
    /// request at its moment, and their cells are theirs still. It takes no lock and no memory, and waits for nobody. Where the pass
    /// knows each counter to be above its limit, and each is to be hit, no cell is asked for.
    ///
    /// A refusal charges nothing and leaves no pin. `Behind` does nothing but one load. After the other two the pass's moment may
    /// have risen. `Unknown` comes before `Reclaimed`, and pins nothing.
    pub fn check_open(
        &self,
        pass: &mut Pass<N>,
        request: &Request,
        now: Seconds,
    ) -> Result<Reply, NotOpen>
        requires pass { pass.old.limiter ≡ self.now.id }
        ensures pass { pass.new.limiter ≡ self.now.id }
        ensures few { length request.now.descriptors ≤ MOST_DESCRIPTORS }
        ensures step { Opens self.now request.now now pass.old result pass.new }
        ensures known { UsesKnown request.now pass.old pass.new }
        ensures pins { TriesNoPin request.now pass.old pass.new }
    {
        let mut reply = Reply::new();
        self.check_open_into(pass, request, now, &mut reply)?;
        Ok(reply)
    }

    /// Answers a request as [`Limiter::check_open`] does, and writes the reply where it is answered. A refused check leaves it as it
    /// was.
    pub fn check_open_into(
        &self,
        pass: &mut Pass<N>,
        request: &Request,
        now: Seconds,
        reply: &mut Reply,
    ) -> Result<(), NotOpen>
        requires pass { pass.old.limiter ≡ self.now.id }
        ensures pass { pass.new.limiter ≡ self.now.id }
        ensures few { length request.now.descriptors ≤ MOST_DESCRIPTORS }
        ensures step { Opens self.now request.now now pass.old (replied result reply.new) pass.new }
        ensures known { UsesKnown request.now pass.old pass.new }
        ensures pins { TriesNoPin request.now pass.old pass.new }
        ensures kept { OnErr result (reply.new ≡ reply.old) }
    {
        let descriptors = request.descriptors();
        if let Some(version) = self.newer_version(pass) {
            return Err(NotOpen::Behind { version });
        }
        self.tick(pass, now);
        let scratch = &mut *pass.scratch;
        let index = pass.version.index();
        plan(index, &mut pass.counters, request, descriptors, scratch);
        match hold_known(
            &self.cells,
            &mut pass.counters,
            scratch.asked.as_slice(),
            &mut scratch.acquired.spots,
        ) {
            Err(missed) => Err(NotOpen::of(missed)),
            Ok(()) => {
                self.answer(
                    &mut pass.counters,
                    pass.version.version(),
                    request,
                    scratch.asked.as_slice(),
                    scratch.acquired.spots.as_slice(),
                    reply,
                );
                Ok(())
            }
        }
    }
}
