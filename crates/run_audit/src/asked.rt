// Which counters of a run are asked for.
ghost use Rattle.std.specs.Prelude.{◌≡◌};
ghost use Rattle.run_audit.specs.Asked.{is_asked};

use crate::binder::Binder;

/// Those that checks name, or those that may have cells when a worker's line is run.
#[derive(Clone, Copy)]
pub enum Asked {
    Named,
    Bound { worker: u32, line: usize },
}

/// Whether a counter is asked for, by who bound it.
pub fn is_asked(asked: Asked, binder: Binder) -> bool
    ensures { result ≡ is_asked asked binder }
{
    match asked {
        Asked::Named => true,
        Asked::Bound { worker, line } => match binder {
            Binder::Nobody => false,
            Binder::One {
                worker: other,
                first,
            } => other != worker || first < line,
            Binder::Several => true,
        },
    }
}
