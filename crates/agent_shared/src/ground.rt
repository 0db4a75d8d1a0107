// What the journal of an agent rests on.
ghost use Rattle.std.specs.Prelude.{◌≡◌};
ghost use Rattle.agent_shared.specs.Views.{sure_of};

use agent_core::Core;
use boxcar::tag::{Names, Tag};
use chip_core::HwSwitch;
use core_published::ChipCaps;
use observers::StateObserver;
use std::marker::Model;
use switch_state::SwitchState;

// How it is read off a core which of its observers are sure.
struct OfCore;

impl<C: HwSwitch, O: StateObserver> Names<Core<C, O>> for OfCore {
    ghost use Rattle.agent_shared.specs.Views.{marks_of};

    ghost numbers = { λ core. marks_of core.audience.watches };
}

/// Which of the observers of a core are sure, in their order. Contracts alone see it, so it takes no bytes.
#[derive(Drop)]
pub struct SureMarks {
    tag: Tag,
}

impl Model for SureMarks {
    ghost use Rattle.std.specs.Prelude.{Bool, List};
    ghost use Rattle.agent_shared.specs.Views.{marked};

    ghost Value = { List Bool };

    ghost view = { λ m. marked m.tag.numbers };
}

impl SureMarks {
    /// Those of a core.
    pub(crate) fn of<C: HwSwitch, O: StateObserver>(core: &Core<C, O>) -> SureMarks
        ensures sure { result ≡ sure_of core.now.audience.watches }
    {
        SureMarks {
            tag: Tag::of::<Core<C, O>, OfCore>(core),
        }
    }
}

/// What the journal of an agent rests on: the opening state and the chip's capacities, how many submissions there may
/// be, and which observers are sure. Contracts alone speak of it, and none is made.
#[derive(Drop)]
pub struct Ground {
    base: SwitchState,
    caps: ChipCaps,
    limit: u64,
    sure: SureMarks,
}

impl Model for Ground {
    ghost use Rattle.shared_laws.specs.Ground.{GroundView};
    ghost use Rattle.switch_state.specs.Plain.{plain};

    ghost Value = { GroundView };

    ghost view = { λ g. record { opening = record { state = plain g.base; version = g.base.version; caps = g.caps }; limit = g.limit; sure = g.sure } };
}
