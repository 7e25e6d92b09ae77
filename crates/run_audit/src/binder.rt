// Who bound a counter.
ghost use Rattle.std.specs.Prelude.{◌≡◌, ◌||◌};
ghost use Rattle.run_audit.specs.Asked.{is_asked};
ghost use Rattle.run_audit.specs.declared.asked.Asked.{Asked};

/// Whose answered checks bound a counter: nobody's, those of one worker, the first of them in this line, or those of several workers.
#[derive(Clone, Copy)]
pub enum Binder {
    Nobody,
    One { worker: u32, first: usize },
    Several,
}

// One worker, which bound it in two lines.
fn one(worker: u32, first: usize, other: usize) -> Binder
    ensures { (asked : Asked) → is_asked asked result
        ≡ (is_asked asked (Binder.One worker first) || is_asked asked (Binder.One worker other)) }
{
    Binder::One {
        worker,
        first: first.min(other),
    }
}

/// Whose checks bound it, where these did and those.
pub fn joined(these: Binder, those: Binder) -> Binder
    ensures { (asked : Asked) → is_asked asked result ≡ (is_asked asked these || is_asked asked those) }
{
    match these {
        Binder::Nobody => those,
        Binder::Several => Binder::Several,
        Binder::One { worker, first } => match those {
            Binder::Nobody => these,
            Binder::Several => Binder::Several,
            Binder::One {
                worker: other,
                first: line,
            } => {
                if worker == other {
                    one(worker, first, line)
                } else {
                    Binder::Several
                }
            }
        },
    }
}
