// The chip side: the core with its chip, and room for a run.
ghost use Rattle.std.specs.Prelude.{◌≡◌, ◌≤◌, ◌<◌, ◌+◌, ◌++◌, ◌∷◌, [], length, IfOk, OnErr, OnOk};
ghost use Rattle.agent_shared.specs.Views.{AreTablesOf, ground_of, sure_of};
ghost use Rattle.core_laws.specs.Published.{IsCore, journal_of};
ghost use Rattle.shared_laws.specs.Calls.{IsLoaded};
ghost use Rattle.shared_laws.specs.Ground.{HasRoom, journal_at};
ghost use Rattle.switch_model.specs.Journal.{len};
ghost use Rattle.switch_model.specs.Legal.{IsRun};
ghost use Rattle.switch_model.specs.Round.{next_round};

use crate::desk::Desk;
use crate::ground::Ground;
use agent_core::{Core, RoundDone, Run};
use chip_core::HwSwitch;
use net_types::{NoMemory, Tables};
use observers::StateObserver;
use std::alloc::Global;
use std::marker::Model;
use switch_model::{Round, Submission};
use turn_book::Settles;

/// The core with its chip, and room for a run. Contracts see the rounds so far, and the run that was loaded last.
#[derive(Drop)]
pub struct Side<C: HwSwitch, O: StateObserver> {
    core: Core<C, O>,
    run: Run,
    limit: u64,
}

impl<C: HwSwitch, O: StateObserver> Model for Side<C, O> {
    ghost use Rattle.agent_shared.specs.Views.{side_of};
    ghost use Rattle.shared_laws.specs.Ground.{SideView};

    ghost Value = { SideView };

    ghost view = { λ s. side_of s.core s.run s.limit };
}

impl<C: HwSwitch, O: StateObserver> Settles for Side<C, O> {
    ghost use Rattle.shared_laws.specs.Ground.{submissions_of};

    type Ground = Ground;

    type Sub = Submission;

    type Round = Round;

    ghost opening = { λ s. s.basis };

    ghost done = { λ s. s.rounds };

    ghost caller = { λ s. s.caller };

    ghost sequence = { λ s. s.seq };

    ghost subs = { submissions_of };
}

impl<C: HwSwitch, O: StateObserver> Side<C, O> {
    /// The chip side of a core. After a refusal of memory the core is dropped.
    pub(crate) fn of(alloc: Global, core: Core<C, O>, limit: u64) -> Result<Side<C, O>, NoMemory>
        ensures basis { IfOk result (λ s. s.basis ≡ ground_of core.published limit (sure_of core.audience.watches)) }
        ensures rounds { IfOk result (λ s. s.rounds ≡ core.published.rounds) }
    {
        let run = Run::room(alloc)?;
        Ok(Side { core, run, limit })
    }

    /// How many rounds there are.
    pub(crate) fn rounds(&self) -> u64
        ensures { result ≡ length self.now.rounds }
    {
        self.core.published().rounds()
    }

    /// Loads the run of what waits at the desk.
    pub(crate) fn load(&mut self, desk: &Desk) -> Result<(), NoMemory>
        ensures same { self.new ≡ record self.old { run = self.new.run } }
        ensures loaded { OnOk result (IsLoaded desk.now.sent (journal_at desk.now.basis desk.now.rounds) self.new.run) }
    {
        desk.load(&mut self.run)
    }

    /// Settles the loaded run in the core. After a refusal of memory all is as before.
    pub(crate) fn round(&mut self, alloc: Global) -> Result<RoundDone, NoMemory>
        requires run { IsRun self.old.run }
        requires fits { len (journal_at self.old.basis self.old.rounds) + length self.old.run ≤ self.old.basis.limit }
        requires room { HasRoom self.old.basis }
        ensures ok { OnOk result (self.new ≡ record self.old { rounds = self.old.rounds ++ next_round (journal_at self.old.basis self.old.rounds) self.old.run ∷ [] }) }
        ensures published { IfOk result (λ done. journal_of done.published ≡ journal_at self.new.basis self.new.rounds) }
        ensures settled { IfOk result (λ done. length (next_round (journal_at self.old.basis self.old.rounds) self.old.run).entries ≡ done.settled) }
        ensures some { IfOk result (λ done. 1 ≤ done.settled) }
        ensures err { OnErr result (self.new ≡ self.old) }
    {
        self.core.shape();
        self.core.published().shape();
        self.core.round(alloc, &self.run)
    }

    /// A copy of the chip's tables.
    pub(crate) fn copy_tables(&self, alloc: Global) -> Result<Tables, NoMemory>
        ensures { IfOk result (AreTablesOf self.now.basis self.now.rounds) }
    {
        self.core.shape();
        self.core.published().shape();
        self.core.copy_tables(alloc)
    }

    /// The core.
    pub(crate) fn into_core(self) -> Core<C, O>
        ensures core { IsCore result }
        ensures opening { self.basis.opening ≡ (journal_of result.published).opening }
        ensures sure { self.basis.sure ≡ sure_of result.audience.watches }
        ensures rounds { self.rounds ≡ result.published.rounds }
    {
        let Side {
            core,
            run,
            limit: _,
        } = self;
        drop(run);
        core.shape();
        core
    }
}
