ghost use Rattle.std.specs.Prelude.{◌≡◌, []};

use arrayvec::ArrayVec;
use std::default::MadeWith;

/// Takes all items of a list. Most have one, whose place is blanked at once; a call blanks more.
#[inline(always)]
pub(crate) fn empty<T: MadeWith<()> + Drop, const CAP: usize>(list: &mut ArrayVec<T, CAP>)
    ensures { list.new.items ≡ [] }
{
    if list.len() == 1 {
        list.pop();
    } else {
        list.clear();
    }
}
