// A core: a chip, what was published of it, and its observers.
ghost use Rattle.std.specs.Prelude.{◌≡◌, IfOk, map};
ghost use Rattle.chip_core.specs.Chip.{IsChip};
ghost use Rattle.core_laws.specs.Published.{IsCore};

use chip_core::HwSwitch;
use core_audience::Audience;
use core_published::Published;
use hw_undo::UndoLog;
use net_types::{NoMemory, Tables};
use observers::{Observers, StateObserver};
use std::alloc::Global;
use std::marker::Model;

/// A chip that shows the rows of what was published last, with the observers of what is published.
///
/// Its journal is legal, its state is sound and is what the journal's accepted updates give, with its FIB,
/// the chip's rows are those of the state, and each observer stands where the core keeps it: at a state
/// that was published, and at the last one where the observer is sure or never refused.
#[derive(Drop)]
pub struct Core<C: HwSwitch, O: StateObserver> {
    pub(crate) chip: C,
    pub(crate) published: Published,
    pub(crate) audience: Audience<O>,
    pub(crate) log: UndoLog,
}

impl<C: HwSwitch, O: StateObserver> Model for Core<C, O> {
    ghost use Rattle.core_laws.specs.Published.{CoreView, IsCore};

    ghost Value = { CoreView };

    ghost view = { λ c. record { raw = C.raw c.chip; caps = C.caps c.chip; writes = C.writes c.chip; published = c.published; audience = c.audience } };

    ghost invariant = { λ c. IsCore (record { raw = C.raw c.chip; caps = C.caps c.chip; writes = C.writes c.chip; published = c.published; audience = c.audience }) };
}

impl<C: HwSwitch, O: StateObserver> Core<C, O> {
    /// What was published last.
    pub fn published(&self) -> &Published
        ensures published { result.now ≡ self.now.published }
    {
        &self.published
    }

    /// A copy of the chip's tables.
    pub fn copy_tables(&self, alloc: Global) -> Result<Tables, NoMemory>
        ensures tables { IfOk result (λ tables. tables ≡ self.now.raw) }
    {
        self.chip.copy_tables(alloc)
    }

    /// The chip, what was published last, and the observers.
    pub fn into_parts(self) -> (C, Published, Observers<O>)
        ensures raw { C.raw result.0 ≡ self.raw }
        ensures caps { C.caps result.0 ≡ self.caps }
        ensures writes { C.writes result.0 ≡ self.writes }
        ensures published { result.1 ≡ self.published }
        ensures watches { map O.watch result.2.list.items ≡ self.audience.watches }
    {
        let Core {
            chip,
            published,
            audience,
            log,
        } = self;
        drop(log);
        (chip, published, audience.into_observers())
    }

    /// What holds of every core: of its journal, state and observers, and of the tables of its chip. It
    /// does nothing when it runs.
    pub fn shape(&self)
        ensures core { IsCore self.now }
        ensures chip { IsChip self.now.caps self.now.raw }
    {
        let _ = &self.chip;
    }
}
