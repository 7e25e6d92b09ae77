ghost use Rattle.std.specs.Prelude.{◌≡◌, ◌++◌, ◌∷◌, [], true, IfOk, OnOk, OnErr};
ghost use Rattle.script_run.specs.Journals.{AreShort};
ghost use Rattle.script_run.specs.Lone.{AreInOrder};

use rate_types::OutOfMemory;
use reply_text::{Record, is_short};
use std::alloc::Global;
use std::marker::Model;

/// The records that a worker wrote, in their order. Contracts see the list of them. What a reader asks of all of them is noted as each is
/// written, so that they needn't be read once more for it.
#[derive(Drop)]
pub struct Journal {
    records: Vec<Record>,
    // Each record stands at the place of its line.
    is_numbered: bool,
    // Each record is short.
    is_short: bool,
}

impl Model for Journal {
    ghost use Rattle.std.specs.Prelude.{◌≡◌, List, true};
    ghost use Rattle.reply_text.specs.declared.record.Record.{Record as RecordValue};
    ghost use Rattle.script_run.specs.Journals.{AreNumbered, AreShort};

    ghost Value = { List RecordValue };

    ghost view = { λ j. j.records.items };

    ghost invariant = { λ j. (j.is_numbered ≡ true → AreNumbered j.records.items) × (j.is_short ≡ true → AreShort j.records.items) };
}

impl Journal {
    /// Without records, and with room for so many at first.
    pub fn with_room(alloc: Global, room: usize) -> Result<Journal, OutOfMemory>
        ensures { IfOk result (λ j. j ≡ []) }
    {
        Ok(Journal {
            records: Vec::with_capacity(alloc, room)?,
            is_numbered: true,
            is_short: true,
        })
    }

    /// Writes one more record.
    #[inline(always)]
    pub fn push(&mut self, rec: Record) -> Result<(), OutOfMemory>
        ensures ok { OnOk result (self.new ≡ self.old ++ rec ∷ []) }
        ensures err { OnErr result (self.new ≡ self.old) }
    {
        let is_numbered = self.is_numbered && rec.line as usize == self.records.len() + 1;
        let is_short = self.is_short && is_short(&rec);
        self.records.push(rec)?;
        self.is_numbered = is_numbered;
        self.is_short = is_short;
        Ok(())
    }

    /// The records in order.
    pub fn items(&self) -> &[Record]
        ensures { result.now ≡ self.now }
    {
        &self.records
    }

    /// The records in order, which are moved.
    pub(crate) fn into_items(self) -> Vec<Record>
        ensures { result.items ≡ self }
    {
        self.records
    }

    /// Whether these are so many records in the order of their lines.
    pub(crate) fn is_in_order(&self, lines: u32) -> bool
        ensures { result ≡ true → AreInOrder lines self.now }
    {
        self.is_numbered && self.records.len() == lines as usize
    }

    /// Whether each record is known to be short.
    pub(crate) fn is_short(&self) -> bool
        ensures { result ≡ true → AreShort self.now }
    {
        self.is_short
    }
}
