ghost use Rattle.std.specs.Prelude.{◌≡◌, ◌++◌, [], IfOk, OnOk, string_bytes};
ghost use Rattle.std.specs.List.{flat_map};
ghost use Rattle.std.specs.Str.{chars};
ghost use Rattle.rate_types.specs.Places.{escaped};
ghost use Rattle.rate_types.specs.Places as places;

use crate::OutOfMemory;
use std::alloc::Global;
use std::fmt;
use std::marker::Model;

/// A place in a document: a JSON pointer (RFC 6901). The empty text is the whole document.
#[derive(Clone, Debug, Drop)]
pub struct Place {
    text: String,
}

impl Model for Place {
    ghost use Rattle.std.specs.Prelude.{List, ℕ, string_bytes};

    ghost Value = { List ℕ };

    ghost view = { λ p. string_bytes p.text };
}

impl Place {
    /// The whole document. It takes no memory.
    pub fn empty(alloc: Global) -> Place
        ensures { result ≡ [] }
    {
        Place {
            text: String::new(alloc),
        }
    }

    /// The place of the member `name` of the object at this place.
    #[tactic(auto, unfolding(crate::specs::Places::child))]
    pub fn child(&self, name: &str) -> Result<Place, OutOfMemory>
        ensures { IfOk result (λ p. p ≡ places.child self.now name.now) }
    {
        let alloc = *self.text.allocator();
        let room = self.text.len().saturating_add(name.len()).saturating_add(1);
        let mut text = String::with_capacity(alloc, room)?;
        text.push_str(&self.text)?;
        text.push('/')?;
        push_escaped(&mut text, name)?;
        Ok(Place { text })
    }

    /// The place of the item with this index, from 0, of the list at this place.
    #[tactic(auto, unfolding(crate::specs::Places::item))]
    pub fn item(&self, alloc: Global, index: u64) -> Result<Place, OutOfMemory>
        ensures { IfOk result (λ p. p ≡ places.item self.now index) }
    {
        let text = format!(in alloc; "{}/{index}", self.text)?;
        Ok(Place { text })
    }

    /// The pointer as a text.
    pub fn as_str(&self) -> &str
        ensures { result.now ≡ self.now }
    {
        &self.text
    }
}

impl fmt::Display for Place {
    fn fmt<W: fmt::Write>(&self, f: &mut fmt::Formatter<W>) -> fmt::Result {
        write!(f, "{}", self.text)
    }
}

// Adds the characters of a name, with `~` and `/` as a pointer has them.
fn push_escaped(text: &mut String, name: &str) -> Result<(), OutOfMemory>
    ensures { OnOk result (string_bytes text.new ≡ string_bytes text.old ++ flat_map escaped (chars name.now)) }
{
    for c in name.chars() {
        match c {
            '~' => text.push_str("~0")?,
            '/' => text.push_str("~1")?,
            c => text.push(c)?,
        }
    }
    Ok(())
}
