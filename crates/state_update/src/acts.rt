// States from acts.
ghost use Rattle.std.specs.Prelude.{◌≡◌, ◌⊎◌, ℕ, Some, None, Err, IfErr, IfOk, OnOk};
ghost use Rattle.switch_model.specs.declared.verdict.Reason.{Reason};
ghost use Rattle.switch_model.specs.Effect.{effect};
ghost use Rattle.switch_model.specs.PlainState.{empty};
ghost use Rattle.switch_model.specs.Reason.{reason_of_act};
ghost use Rattle.switch_model.specs.Sound.{IsSound};
ghost use Rattle.switch_model.specs.Built.{built};
ghost use Rattle.switch_model.specs.Touched.{Touched, touched};
ghost use Rattle.switch_state.specs.Paths.{PartsMade};
ghost use Rattle.switch_state.specs.Plain.{plain};
ghost use Rattle.switch_state.specs.StateView.{no_entries, nothing};
ghost use Rattle.state_update.specs.Births.{BornAt, KeepsBirths};
ghost use Rattle.state_update.specs.Made.{AreBornAt, AreMadeAt};

use crate::update::{Applied, apply_act};
use net_types::NoMemory;
use std::alloc::Global;
use switch_model::{Act, ActList, Reason};
use switch_state::{StateEdit, SwitchState};

/// Why no state was built.
#[derive(Clone, Copy, Debug, PartialEq, Eq)]
pub enum BuildFault {
    /// The act at that place, counted from 0, is invalid in the state that those before it give.
    Invalid { index: u64, reason: Reason },
    NoMemory,
}

impl From<NoMemory> for BuildFault {
    ghost use Rattle.std.specs.Prelude.{◌≡◌};
    ghost use Rattle.state_update.specs.declared.acts.BuildFault.TheVariants as fault;

    ghost from_gives = { λ _ e. e ≡ fault.NoMemory };

    fn from(_: NoMemory) -> BuildFault {
        BuildFault::NoMemory
    }
}

/// The state that acts give in turn, from the state of nothing, as one of that version with no FIB.
/// It is sound, and each of its nodes and entries is of the version.
pub fn build(alloc: Global, version: u64, acts: &ActList) -> Result<SwitchState, BuildFault>
    ensures state { IfOk result (λ s. built empty acts.now ≡ Ok (plain s)) }
    ensures version { IfOk result (λ s. s.version ≡ version) }
    ensures fibs { IfOk result (λ s. s.fibs ≡ no_entries) }
    ensures sound { IfOk result (λ s. IsSound (plain s)) }
    ensures made { IfOk result (λ s. AreMadeAt version s) }
    ensures born { IfOk result (λ s. AreBornAt version s) }
    ensures invalid { (index : ℕ) (reason : Reason) → result ≡ Err (BuildFault.Invalid index reason) → built empty acts.now ≡ Err (index, reason) }
    ensures refused { (index : ℕ) (reason : Reason) → built empty acts.now ≡ Err (index, reason) → (result ≡ Err (BuildFault.Invalid index reason)) ⊎ (result ≡ Err BuildFault.NoMemory) }
{
    let mut edit = blank(alloc, version)?;
    do_acts(alloc, &mut edit, acts.as_slice())?;
    Ok(edit.finish())
}

// An edit of the state of nothing.
fn blank(alloc: Global, version: u64) -> Result<StateEdit, NoMemory>
    ensures { IfOk result (λ e. e.state ≡ record nothing { version = version }) }
{
    StateEdit::of(alloc, &SwitchState::empty(), version)
}

fn do_acts(alloc: Global, edit: &mut StateEdit, acts: &[Act]) -> Result<(), BuildFault>
    ensures state { OnOk result (built (plain edit.old.state) acts.now ≡ Ok (plain edit.new.state)) }
    ensures invalid { IfErr result (λ e. (index : ℕ) (reason : Reason) → e ≡ BuildFault.Invalid index reason → built (plain edit.old.state) acts.now ≡ Err (index, reason)) }
    ensures version { edit.new.state.version ≡ edit.old.state.version }
    ensures fibs { edit.new.state.fibs ≡ edit.old.state.fibs }
    ensures born { BornAt edit.old.state.version edit.old.state edit.new.state }
    ensures paths { (t : Touched) × PartsMade edit.old.state.version t edit.old.state edit.new.state }
{
    for (index, act) in acts.iter().enumerate() {
        do_act(alloc, edit, index, act)?;
    }
    Ok(())
}

fn do_act(alloc: Global, edit: &mut StateEdit, index: usize, act: &Act) -> Result<(), BuildFault>
    ensures valid { OnOk result (reason_of_act (plain edit.old.state) act.now ≡ None) }
    ensures effect { OnOk result (plain edit.new.state ≡ effect (plain edit.old.state) act.now) }
    ensures invalid { IfErr result (λ e. (place : ℕ) (reason : Reason) → e ≡ BuildFault.Invalid place reason → (place ≡ index) × (reason_of_act (plain edit.old.state) act.now ≡ Some reason)) }
    ensures version { edit.new.state.version ≡ edit.old.state.version }
    ensures fibs { edit.new.state.fibs ≡ edit.old.state.fibs }
    ensures births { KeepsBirths edit.old.state edit.new.state }
    ensures born { BornAt edit.old.state.version edit.old.state edit.new.state }
    ensures paths { PartsMade edit.old.state.version (touched (plain edit.old.state) act.now) edit.old.state edit.new.state }
{
    match apply_act(alloc, edit, act)? {
        Applied::Changed => Ok(()),
        Applied::Invalid(reason) => Err(BuildFault::Invalid {
            index: index as u64,
            reason,
        }),
    }
}
