// What a reader is given.
ghost use Rattle.std.specs.Prelude.{◌≡◌, IfOk, slice_get};
ghost use Rattle.std.specs.Option.{option_copied};
ghost use Rattle.core_laws.specs.Published.{journal_of};
ghost use Rattle.switch_model.specs.Journal.{entries, len};
ghost use Rattle.state_laws.specs.Fib.{HasFib};

use crate::published::Published;
use net_types::NoMemory;
use std::marker::Model;
use switch_model::Entry;
use switch_state::SwitchState;

/// What was published at one moment, as a reader is given it: the journal and its state.
#[derive(Drop)]
pub struct Snapshot {
    published: Published,
}

impl Model for Snapshot {
    ghost use Rattle.core_laws.specs.Published.{PublishedView};

    ghost Value = { PublishedView };

    ghost view = { λ s. s.published };
}

impl Snapshot {
    /// A snapshot of what is published.
    pub fn of(published: &Published) -> Result<Snapshot, NoMemory>
        ensures same { IfOk result (λ s. s ≡ published.now) }
    {
        let published = published.share()?;
        Ok(Snapshot { published })
    }

    /// How many entries the journal has.
    pub fn front(&self) -> u64
        ensures entries { result ≡ len (journal_of self.now) }
    {
        self.published.front()
    }

    /// The version of the state.
    pub fn version(&self) -> u64
        ensures version { result ≡ self.now.state.version }
    {
        self.published.state().version()
    }

    /// The state.
    pub fn state(&self) -> &SwitchState
        ensures state { result.now ≡ self.now.state }
        ensures fib { HasFib result.now }
    {
        self.published.state()
    }

    /// The entry at a position of the journal: none exactly past the last.
    pub fn entry(&self, position: u64) -> Option<&Entry>
        ensures entry { option_copied result ≡ slice_get (entries (journal_of self.now)) position }
    {
        self.published.entry(position)
    }

    /// One more owner of the same snapshot.
    pub fn share(&self) -> Result<Snapshot, NoMemory>
        ensures same { IfOk result (λ s. s ≡ self.now) }
    {
        Snapshot::of(&self.published)
    }
}
