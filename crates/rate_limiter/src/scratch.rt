use crate::asked::Asked;
use arrayvec::ArrayVec;
use counter_directory::Acquired;
use rate_types::limits::MOST_DESCRIPTORS;
use rule_lookup::Rules;

/// The lists that the checks of a pass write, one check after the other, so that none is made and none is moved for a check. What
/// stands in them between two checks says nothing.
#[derive(Drop)]
pub(crate) struct Scratch {
    /// What each descriptor finds.
    pub rules: Rules,
    /// What is asked for each descriptor.
    pub asked: ArrayVec<Asked, MOST_DESCRIPTORS>,
    /// Where the counters are pinned.
    pub acquired: Acquired,
}

impl Scratch {
    /// Without items.
    pub(crate) fn new() -> Scratch {
        Scratch {
            rules: ArrayVec::new(),
            asked: ArrayVec::new(),
            acquired: Acquired::new(),
        }
    }
}
