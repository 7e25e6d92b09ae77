// From passes to checkers, and back.
ghost use Rattle.std.specs.Prelude.{◌≡◌, All, IfOk, map};
ghost use Rattle.http_checks.specs.Made.{checkers};

use crate::PassChecks;
use counter_cells::CellNaming;
use rate_limiter::{Limiter, Pass};
use rate_types::OutOfMemory;
use std::alloc::Global;

/// A checker of each pass.
pub fn checks_of<'a, N: CellNaming>(
    alloc: Global,
    limiter: &'a Limiter<N>,
    passes: Vec<Pass<N>>,
) -> Result<Vec<PassChecks<'a, N>>, OutOfMemory>
    requires { All (λ p. p.limiter ≡ limiter.now.id) passes.items }
    ensures { IfOk result (λ v. v.items ≡ checkers limiter.now passes.items) }
{
    let mut checks = Vec::with_capacity(alloc, passes.len())?;
    for pass in passes {
        checks.push_reserved(PassChecks::new(limiter, pass));
    }
    Ok(checks)
}

/// The pass of each checker.
pub fn passes_of<'a, N: CellNaming>(
    alloc: Global,
    checks: Vec<PassChecks<'a, N>>,
) -> Result<Vec<Pass<N>>, OutOfMemory>
    ensures passes { IfOk result (λ v. v.items ≡ map (λ c. c.pass) checks.entry.items) }
    ensures limiters { IfOk result (λ v. map (λ p. p.limiter) v.items ≡ map (λ c. c.limiter.id) checks.entry.items) }
{
    let mut passes = Vec::with_capacity(alloc, checks.len())?;
    for check in checks {
        passes.push_reserved(check.into_pass());
    }
    Ok(passes)
}
