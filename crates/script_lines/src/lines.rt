use json::Scratch;
use rate_types::OutOfMemory;
use script_run::Line;
use std::alloc::Global;

/// The lines of a script. A worker reads a line when it runs it, so that none is held before or after.
pub trait ScriptLines: Sync {
    ghost use Rattle.std.specs.Prelude.{◌≡◌, ◌<◌, ◌≤◌, List, length, slice_get, Some, IfOk};
    ghost use Rattle.rate_types.specs.declared.limits.TheConstants.{MOST_LINES};
    ghost use Rattle.script_run.specs.ScriptLine.{ScriptLine};
    ghost use Rattle.script_run.specs.Views.{line_view};

    /// What the lines say, in order.
    ghost lines: { Self → List ScriptLine };

    /// How many lines there are: at most 1,048,576.
    fn count(&self) -> u32
        ensures all { result ≡ length (lines self.now) }
        ensures few { result ≤ MOST_LINES };

    /// How many lines a worker draws at a time, at least 1. Its lines are then run in order.
    fn batch(&self) -> u64
        ensures { 1 ≤ result };

    /// Reads the line with this index, counted from 0. The scratch is the worker's own, which it keeps from line to line.
    fn read(&self, alloc: Global, scratch: &mut Scratch, index: usize) -> Result<Line, OutOfMemory>
        requires { index < length (lines self.now) }
        ensures { IfOk result (λ l. slice_get (lines self.now) index ≡ Some (line_view l)) };
}
