ghost use Rattle.std.specs.Prelude.{◌≡◌, IfOk, OnErr};
ghost use Rattle.http_endpoint.specs.Answers.{Asked, check, statistics};

use rate_types::{OutOfMemory, Request, Seconds, Word};
use rls_core::{CheckFault, Reply};
use std::alloc::Global;
use std::sync::Wait;

/// What answers checks: a limiter with what it keeps for its caller. It may keep statistics of rules.
pub trait Checks {
    /// From the first state, what was asked came to this, and left the second state.
    ghost answers: { Self → Asked → Self → Type 0 };

    /// Checks a request, offering a moment. It may wait for others that check.
    fn check<R: Wait>(
        &mut self,
        rt: &R,
        alloc: Global,
        request: &Request,
        now: Seconds,
    ) -> Result<Reply, CheckFault>
        ensures { answers self.old (check (record { request = request.now; now = now; result = result })) self.new };

    /// The statistics as a JSON text, where it keeps any.
    fn stats(&mut self, alloc: Global) -> Result<Option<Word>, OutOfMemory>
        ensures asked { IfOk result (λ text. answers self.old (statistics text) self.new) }
        ensures memory { OnErr result (self.new ≡ self.old) };
}
