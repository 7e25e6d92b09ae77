// One line of a script, run through a pass.
ghost use Rattle.std.specs.Prelude.{◌≡◌, IfOk};
ghost use Rattle.std.specs.Arc.{arc_value};
ghost use Rattle.descriptor_tree.specs.Views.{config_view};
ghost use Rattle.rate_limiter.specs.Passes.{bounds_of};
ghost use Rattle.script_run.specs.ScriptLine.{check, reload, tick, bad};
ghost use Rattle.script_run.specs.Views.{line_view};
ghost use Rattle.worker_run.specs.LineSteps.{LineStep};

use counter_cells::CellNaming;
use descriptor_tree::Config;
use rate_limiter::{Limiter, Pass};
use rate_types::{OutOfMemory, Request, Seconds};
use reply_text::{Outcome, Statuses};
use rls_core::{CheckFault, ReloadFault, Reply};
use script_run::Line;
use std::alloc::Global;
use std::sync::{Arc, Wait};

#[inline(always)]
fn check_line<N: CellNaming, R: Wait>(
    rt: &R,
    alloc: Global,
    limiter: &Limiter<N>,
    pass: &mut Pass<N>,
    request: &Request,
    start: Seconds,
    reply: &mut Reply,
) -> Result<Outcome, OutOfMemory>
    requires pass { pass.old.limiter ≡ limiter.now.id }
    ensures pass { pass.new.limiter ≡ limiter.now.id }
    ensures step { IfOk result (λ o. LineStep (bounds_of N.setup.cells limiter.now) limiter.now start (check request.now) pass.old o
        pass.new) }
{
    match limiter.check_into(rt, alloc, pass, request, start, reply) {
        Ok(()) => {
            let answer = Statuses::of_reply(alloc, reply)?;
            Ok(Outcome::Checked(answer))
        }
        Err(
            CheckFault::CountersFull {
                live,
                held,
                wanted,
                ..
            },
        ) => Ok(Outcome::Full { live, held, wanted }),
        Err(CheckFault::ClaimsSpent { claims, wanted }) => Ok(Outcome::Spent { claims, wanted }),
        Err(CheckFault::OutOfMemory) => Err(OutOfMemory),
    }
}

fn reload_line<N: CellNaming, R: Wait>(
    rt: &R,
    alloc: Global,
    limiter: &Limiter<N>,
    pass: &mut Pass<N>,
    config: Arc<Config>,
    start: Seconds,
) -> Result<Outcome, OutOfMemory>
    requires pass { pass.old.limiter ≡ limiter.now.id }
    ensures pass { pass.new.limiter ≡ limiter.now.id }
    ensures step { IfOk result
        (λ o. LineStep (bounds_of N.setup.cells limiter.now) limiter.now start (reload (config_view (arc_value config)))
        pass.old o pass.new) }
{
    let _ = start;
    match limiter.reload(rt, alloc, pass, config) {
        Ok(_) => Ok(Outcome::Installed),
        Err(ReloadFault::VersionsFull { versions }) => Ok(Outcome::VersionsFull { versions }),
        Err(ReloadFault::OutOfMemory) => Err(OutOfMemory),
    }
}

/// Runs one line: checks offer `start`, ticks their number. The reply of a check is written to `reply`.
#[inline(always)]
pub(crate) fn run_line<N: CellNaming, R: Wait>(
    rt: &R,
    alloc: Global,
    limiter: &Limiter<N>,
    pass: &mut Pass<N>,
    line: &Line,
    start: Seconds,
    reply: &mut Reply,
) -> Result<Outcome, OutOfMemory>
    requires pass { pass.old.limiter ≡ limiter.now.id }
    ensures pass { pass.new.limiter ≡ limiter.now.id }
    ensures step { IfOk result (λ o. LineStep (bounds_of N.setup.cells limiter.now) limiter.now start (line_view line.now) pass.old o
        pass.new) }
{
    match line {
        Line::Check(request) => check_line(rt, alloc, limiter, pass, request, start, reply),
        Line::Reload(config) => {
            let config = config.clone()?;
            reload_line(rt, alloc, limiter, pass, config, start)
        }
        Line::Tick(now) => {
            limiter.tick(pass, *now);
            Ok(Outcome::Ticked(*now))
        }
        Line::Bad(refused) => {
            let refused = refused.clone()?;
            Ok(Outcome::Bad(refused))
        }
    }
}
