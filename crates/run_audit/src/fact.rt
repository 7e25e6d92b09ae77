ghost use Rattle.std.specs.Prelude.{◌≡◌, ◌↔◌, IsTrue, length, map};
ghost use Rattle.script_run.specs.Lines.{EachLine};
ghost use Rattle.script_run.specs.Views.{line_view};

use reply_text::Record;
use script_run::Line;

/// A fact about a line and its record, and about the lines and the records before them.
pub trait Fact {
    ghost use Rattle.std.specs.Prelude.{◌≡◌, ◌↔◌, IsTrue, List, length, map};
    ghost use Rattle.reply_text.specs.declared.record.Record.{Record};
    ghost use Rattle.script_run.specs.ScriptLine.{ScriptLine};
    ghost use Rattle.script_run.specs.Views.{line_view};

    /// The fact.
    ghost stands: { Self → List ScriptLine → List Record → ScriptLine → Record → Type 0 };

    /// Whether it stands.
    fn decide(&self, before: &[Line], earlier: &[Record], line: &Line, rec: &Record) -> bool
        requires { length before.now ≡ length earlier.now }
        ensures { IsTrue result ↔ stands self.now (map line_view before.now) earlier.now (line_view line.now) rec.now };
}

/// Whether a fact stands of each line and its record.
pub fn each_line<F: Fact>(fact: &F, lines: &[Line], records: &[Record]) -> bool
    requires { length records.now ≡ length lines.now }
    ensures { IsTrue result ↔ EachLine (map line_view lines.now) records.now (F.stands fact.now) }
{
    'lines: for i in 0..records.len() {
        if !fact.decide(&lines[..i], &records[..i], &lines[i], &records[i]) {
            return false;
        }
    }
    true
}
