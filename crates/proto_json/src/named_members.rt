ghost use Rattle.std.specs.Prelude.{Some, IfOk, map};
ghost use Rattle.serde_json.specs.View.{view, members_view};
ghost use Rattle.std.specs.List.Sorted.{IsStrictlySortedBy};
ghost use Rattle.rate_types.specs.Counters.{text_cmp};
ghost use Rattle.rate_types.specs.Reading.{AnswersReading};
ghost use Rattle.proto_json.specs.Said.{reading_of};
ghost use Rattle.proto_json.specs.Held.{object_of};
ghost use Rattle.proto_json.specs.NamedMembers.{members_in, named, named_members};

use crate::{Fields, FormFault, Kind};
use rate_types::refusals::TEXT_TOO_LONG;
use rate_types::{Place, Refused, Text};
use serde_json::{Map, Value};
use std::alloc::Global;

/// A kind of member of an object whose names are data and no fields: its values are of one kind.
pub trait NamedMember {
    ghost use Rattle.std.specs.Prelude.{◌≡◌, List, ℕ};

    /// The kind of its value.
    type Kind: Kind;

    /// A member: its name with its value.
    type Member: Drop;

    /// The member of a name and a value.
    ghost made: { List ℕ → Self.Kind.Read → Self.Member };

    /// The name of a member.
    ghost label: { Self.Member → List ℕ };

    /// Makes the member of a name and a value.
    fn with(name: Text, value: <Self::Kind as Kind>::Read) -> Self::Member
        ensures { result ≡ made name value };

    /// A member has the name that it was made with.
    ghost keeps_name: { (n : List ℕ) (v : Self.Kind.Read) → label (made n v) ≡ n };
}

// Reads one member.
#[tactic(auto, using(crate::specs::Laws::reading_then), unfolding(crate::specs::NamedMembers::named, crate::specs::NamedMembers::short_name))]
fn read_member<M: NamedMember>(
    alloc: Global,
    place: &Place,
    name: Text,
    value: Value,
) -> Result<M::Member, FormFault>
    ensures { AnswersReading (λ m. Some m) result
        (reading_of (named M.Kind.says M.made place.now name (view value))) }
{
    let at = place.child(name.as_str())?;
    let value = <M::Kind as Kind>::read(alloc, value, at)?;
    Ok(M::with(name, value))
}

// Reads the members of an object at this place.
fn read_each<M: NamedMember>(
    alloc: Global,
    place: Place,
    members: Map<String, Value>,
) -> Result<Vec<M::Member>, FormFault>
    ensures said { AnswersReading (λ v. Some v.items) result
        (reading_of (members_in (named M.Kind.says M.made) place (members_view members.entries))) }
    ensures sorted { IfOk result (λ v. IsStrictlySortedBy text_cmp (map M.label v.items)) }
{
    let mut found = Vec::new(alloc);
    'members: for (name, value) in members {
        let Some(name) = Text::of(name) else {
            return Err(FormFault::Refused(Refused {
                at: place,
                number: TEXT_TOO_LONG,
            }));
        };
        let member = match read_member::<M>(alloc, &place, name, value) {
            Ok(member) => member,
            Err(fault) => return Err(fault),
        };
        found.push(member)?;
    }
    Ok(found)
}

/// Reads an object whose names are data, member by member in the order of the names' bytes. A name of more than 1,024
/// bytes is refused with 18 TextTooLong at the object's place, just before its value is read.
#[tactic(auto, unfolding(crate::specs::NamedMembers::named_members))]
pub fn read_members<M: NamedMember>(
    alloc: Global,
    object: Fields,
) -> Result<Vec<M::Member>, FormFault>
    ensures said { AnswersReading (λ v. Some v.items) result
        (reading_of (named_members M.Kind.says M.made (object_of object))) }
    ensures sorted { IfOk result (λ v. IsStrictlySortedBy text_cmp (map M.label v.items)) }
{
    let (place, members) = object.into_members();
    read_each::<M>(alloc, place, members)
}
