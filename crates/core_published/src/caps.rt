// The capacities with which a journal was opened.
ghost use Rattle.std.specs.Prelude.{◌≡◌};

use boxcar::tag::{Names, Tag};
use chip_core::HwSwitch;
use std::marker::Model;

// How capacities are read off a chip.
struct OfChip;

impl<C: HwSwitch> Names<C> for OfChip {
    ghost use Rattle.core_published.specs.ChipCaps.{numbers_of};

    ghost numbers = { λ chip. numbers_of (C.caps chip) };
}

// How they are read off what holds them.
struct OfTag;

impl Names<Tag> for OfTag {
    ghost numbers = { λ tag. tag.numbers };
}

/// The capacities of a chip. Contracts alone see them, so they take no bytes.
#[derive(Drop)]
pub struct ChipCaps {
    tag: Tag,
}

impl Model for ChipCaps {
    ghost use Rattle.net_types.specs.declared.table.Caps.{Caps};
    ghost use Rattle.core_published.specs.ChipCaps.{caps_of};

    ghost Value = { Caps };

    ghost view = { λ c. caps_of c.tag.numbers };
}

impl ChipCaps {
    /// Those of a chip.
    pub fn of<C: HwSwitch>(chip: &C) -> ChipCaps
        ensures caps { result ≡ C.caps chip.now }
    {
        ChipCaps {
            tag: Tag::of::<C, OfChip>(chip),
        }
    }

    /// The same ones.
    pub fn copy(&self) -> ChipCaps
        ensures same { result ≡ self.now }
    {
        ChipCaps {
            tag: Tag::of::<Tag, OfTag>(&self.tag),
        }
    }
}
