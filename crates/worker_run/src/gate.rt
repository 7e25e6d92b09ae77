use counter_cells::CellNaming;
use rate_limiter::Pass;
use reply_text::Record;
use script_run::Line;

/// Is told when a worker begins a line and when it is done with it. The workers call it side by side.
pub trait Gate: Sync {
    ghost use Rattle.script_run.specs.Views.{line_view};
    ghost use Rattle.worker_run.specs.LineSteps.{IsShown};

    /// The worker has drawn the line, which is numbered from 1, and has done nothing for it yet.
    fn before(&self, worker: u32, line: u32);

    /// The worker's record of the line stands in its journal. Where it is an answered check, the last charges of the pass are those
    /// that the record shows.
    fn after<N: CellNaming>(&self, worker: u32, line: &Line, shown: &Record, pass: &Pass<N>)
        requires { IsShown (line_view line.now) shown.now pass.now };
}

/// Does nothing.
pub struct Open;

impl Gate for Open {
    fn before(&self, _: u32, _: u32) {}

    fn after<N: CellNaming>(&self, _: u32, _: &Line, _: &Record, _: &Pass<N>) {}
}
