ghost use Rattle.std.specs.Prelude.{◌≡◌, ◌≤◌, [], true, OnOk, OnErr, IfOk};
ghost use Rattle.http_front.specs.Front.{is_json};
ghost use Rattle.http_front.specs.Printed.{answer_bytes};

use http_front::{HttpAnswer, print_answer};
use rate_types::OutOfMemory;
use std::alloc::Global;
use std::marker::Model;

/// The bytes that a page has room for at the start. Each answer without a JSON body is shorter.
const ROOM: usize = 1_024;

/// The text of an answer. It has room for each answer without a JSON body, so that printing one takes no memory.
#[derive(Drop)]
pub struct Page {
    text: String,
}

impl Model for Page {
    ghost use Rattle.std.specs.Prelude.{List, ℕ, ◌≤◌, string_bytes, string_capacity};

    ghost Value = { List ℕ };

    ghost view = { λ page. string_bytes page.text };

    ghost invariant = { λ page. 256 ≤ string_capacity page.text };
}

impl Page {
    /// An empty one.
    pub fn make(alloc: Global) -> Result<Page, OutOfMemory>
        ensures { IfOk result (λ page. page ≡ []) }
    {
        let text = String::with_capacity(alloc, ROOM)?;
        Ok(Page { text })
    }

    /// The text.
    pub fn text(&self) -> &str
        ensures { result.now ≡ self.now }
    {
        &self.text
    }

    /// Nothing is in it.
    pub fn clear(&mut self)
        ensures { self.new ≡ [] }
    {
        self.text.clear();
    }

    /// Prints an answer in place of what it says.
    pub fn print(&mut self, answer: &HttpAnswer) -> Result<(), OutOfMemory>
        ensures text { OnOk result (self.new ≡ answer_bytes answer.now) }
        ensures memory { OnErr result (is_json answer.now.body ≡ true) }
    {
        print_answer(&mut self.text, answer)
    }
}
