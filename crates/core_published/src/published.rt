// What is published after each round.
ghost use Rattle.std.specs.Prelude.{◌≡◌, ◌≤◌, ◌<◌, ◌+◌, ◌^◌, ◌++◌, ◌∷◌, [], IfOk, length, map, slice_get};
ghost use Rattle.std.specs.Option.{option_copied};
ghost use Rattle.core_laws.specs.Judged.{after_judged};
ghost use Rattle.core_laws.specs.Published.{IsPublished, journal_of};
ghost use Rattle.shared_journal.specs.Ends.{end_of};
ghost use Rattle.switch_model.specs.Journal.{entries, len};
ghost use Rattle.switch_model.specs.Round.{next_version, round_of};
ghost use Rattle.switch_state.specs.Follows.{Follows};
ghost use Rattle.switch_state.specs.Plain.{plain};
ghost use Rattle.state_laws.specs.Fib.{HasFib};

use crate::caps::ChipCaps;
use net_types::NoMemory;
use run_judge::round_with;
use shared_journal::SharedJournal;
use std::alloc::Global;
use std::marker::Model;
use switch_model::{Entry, RoundKind, Submission, Verdict};
use switch_state::SwitchState;

/// What is published after a round: the state, and the journal that led to it from the opening state. It is
/// shared and never changed. The state is what the accepted updates of the journal give, at the version of
/// its last entry, and has its FIB.
#[derive(Drop)]
pub struct Published {
    base: SwitchState,
    state: SwitchState,
    rounds: SharedJournal,
    caps: ChipCaps,
}

impl Model for Published {
    ghost use Rattle.core_laws.specs.Published.{PublishedView, IsPublished};

    ghost Value = { PublishedView };

    ghost view = { λ p. record { base = p.base; state = p.state; rounds = p.rounds; caps = p.caps } };

    ghost invariant = { λ p. IsPublished (record { base = p.base; state = p.state; rounds = p.rounds; caps = p.caps }) };
}

impl Published {
    /// What is published first: an opening state with its FIB, the capacities of a chip, and no rounds.
    pub fn open(base: SwitchState, caps: ChipCaps) -> Result<Published, NoMemory>
        requires fib { HasFib base }
        ensures opened { IfOk result (λ p. p ≡ record { base = base; state = base; rounds = []; caps = caps }) }
    {
        let state = base.share()?;
        Ok(Published {
            base,
            state,
            rounds: SharedJournal::new(),
            caps,
        })
    }

    /// The opening state.
    pub fn base(&self) -> &SwitchState
        ensures base { result.now ≡ self.now.base }
    {
        &self.base
    }

    /// The state after the last round.
    pub fn state(&self) -> &SwitchState
        ensures state { result.now ≡ self.now.state }
        ensures fib { HasFib result.now }
    {
        &self.state
    }

    /// How many entries the journal has.
    pub fn front(&self) -> u64
        ensures entries { result ≡ len (journal_of self.now) }
    {
        self.rounds.front()
    }

    /// How many rounds the journal has.
    pub fn rounds(&self) -> u64
        ensures rounds { result ≡ length self.now.rounds }
    {
        self.rounds.rounds()
    }

    /// The first position after the k-th round, counted from 0, and whether the round is whole: none
    /// exactly where there is no k-th round.
    pub fn round_end(&self, k: u64) -> Option<(u64, bool)>
        ensures end { result ≡ end_of self.now.rounds k }
    {
        self.rounds.round_end(k)
    }

    /// The entry at a position, counted from 0 over all rounds: none exactly past the last.
    pub fn entry(&self, position: u64) -> Option<&Entry>
        ensures entry { option_copied result ≡ slice_get (entries (journal_of self.now)) position }
    {
        self.rounds.entry(position)
    }

    /// One more owner of the same. It costs a link for each map of the two states and of the journal.
    pub fn share(&self) -> Result<Published, NoMemory>
        ensures same { IfOk result (λ p. p ≡ self.now) }
    {
        let base = self.base.share()?;
        let state = self.state.share()?;
        let rounds = self.rounds.share()?;
        Ok(Published {
            base,
            state,
            rounds,
            caps: self.caps.copy(),
        })
    }

    /// What holds of all that is published. It does nothing when it runs.
    pub fn shape(&self)
        ensures published { IsPublished self.now }
        ensures follows { Follows self.now.state self.now.state }
    {
        self.state.shape();
    }

    /// With one more round, of submissions with these verdicts, and the state after it.
    pub(crate) fn extended(
        &self,
        alloc: Global,
        kind: RoundKind,
        judged: Vec<(Submission, Verdict)>,
        state: SwitchState,
    ) -> Result<Published, NoMemory>
        requires some { 1 ≤ length judged.items }
        requires room { len (journal_of self.now) + length judged.items < 2 ^ 64 }
        requires plain { plain state ≡ after_judged (plain self.now.state) judged.items }
        requires version { state.version ≡ next_version self.now.state.version (map (λ x. x.1) judged.items) }
        requires fib { HasFib state }
        ensures extended { IfOk result (λ p. p ≡ record self.now { state = state; rounds = self.now.rounds ++ round_of kind self.now.state.version judged.items ∷ [] }) }
    {
        let round = round_with(alloc, kind, state.version(), judged)?;
        let base = self.base.share()?;
        let rounds = self.rounds.extended(alloc, round)?;
        Ok(Published {
            base,
            state,
            rounds,
            caps: self.caps.copy(),
        })
    }
}
