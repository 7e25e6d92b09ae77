ghost use Rattle.std.specs.Prelude.{◌≡◌, ◌≤◌, [], length};

use rate_types::Descriptor;
use rate_types::limits::MOST_DESCRIPTORS;
use std::alloc::Global;
use std::marker::Model;

/// At most 32 descriptors.
#[derive(Drop)]
pub struct DescriptorList {
    items: Vec<Descriptor>,
}

impl Model for DescriptorList {
    ghost use Rattle.std.specs.Prelude.{◌≤◌, List, length};
    ghost use Rattle.rate_types.specs.declared.limits.TheConstants.{MOST_DESCRIPTORS};
    ghost use Rattle.rate_types.specs.declared.request.Descriptor.{Descriptor};

    ghost Value = { List Descriptor };

    ghost view = { λ d. d.items.items };

    ghost invariant = { λ d. length d.items.items ≤ MOST_DESCRIPTORS };
}

impl DescriptorList {
    /// No descriptors.
    pub fn none(alloc: Global) -> DescriptorList
        ensures { result ≡ [] }
    {
        DescriptorList {
            items: Vec::new(alloc),
        }
    }

    /// These descriptors.
    pub fn of(items: Vec<Descriptor>) -> DescriptorList
        requires { length items.items ≤ MOST_DESCRIPTORS }
        ensures { result ≡ items.items }
    {
        DescriptorList { items }
    }

    /// The descriptors in order, which are moved.
    pub fn into_items(self) -> Vec<Descriptor>
        ensures all { result.items ≡ self }
        ensures few { length self ≤ MOST_DESCRIPTORS }
    {
        self.items
    }
}
