// The state that a cold start begins with.
ghost use Rattle.std.specs.Prelude.{◌≡◌, Ok, Err, IfNone, IfOk, IfSome};
ghost use Rattle.base_state.specs.Base.{IsBase};
ghost use Rattle.switch_model.specs.Built.{laid};
ghost use Rattle.switch_model.specs.Effect.{effect};
ghost use Rattle.switch_model.specs.Reason.{reason_of_act};
ghost use Rattle.switch_state.specs.Plain.{plain};
ghost use Rattle.switch_state.specs.StateView.{nothing};

use net_types::NoMemory;
use script_text::BaseList;
use state_update::{Applied, apply};
use std::alloc::Global;
use switch_model::{Act, Reason, Update};
use switch_state::{StateEdit, SwitchState};

/// What the base of a cold start comes to.
#[derive(Drop)]
pub enum Base {
    /// The state that its acts lead to, one after another, from the empty one, at version 0.
    Laid(SwitchState),
    /// The first line whose act is invalid, and why.
    Bad { line: u64, reason: Reason },
}

/// Takes the acts of a base in their order.
pub fn lay(alloc: Global, base: BaseList) -> Result<Base, NoMemory>
    ensures base { IfOk result (IsBase base) }
{
    let mut edit = blank(alloc)?;
    match lay_all(alloc, &mut edit, base) {
        Ok(None) => Ok(Base::Laid(edit.finish())),
        Ok(Some((line, reason))) => {
            drop(edit);
            Ok(Base::Bad { line, reason })
        }
        Err(fault) => {
            drop(edit);
            Err(fault)
        }
    }
}

// An edit of the state of nothing.
fn blank(alloc: Global) -> Result<StateEdit, NoMemory>
    ensures { IfOk result (λ e. e.state ≡ nothing) }
{
    StateEdit::of(alloc, &SwitchState::empty(), 0)
}

// Takes acts in their order, up to the first that is invalid: its line, and why.
fn lay_all(
    alloc: Global,
    edit: &mut StateEdit,
    base: BaseList,
) -> Result<Option<(u64, Reason)>, NoMemory>
    ensures laid { IfOk result (λ bad. IfNone bad (laid (plain edit.old.state) base ≡ Ok (plain edit.new.state))) }
    ensures bad { IfOk result (λ bad. IfSome bad (λ x. laid (plain edit.old.state) base ≡ Err x)) }
    ensures version { edit.new.state.version ≡ edit.old.state.version }
{
    for entry in base.into_vec() {
        let (line, act) = entry;
        if let Some(reason) = lay_act(alloc, edit, act)? {
            return Ok(Some((line, reason)));
        }
    }
    Ok(None)
}

// The effect of an act, or why it is invalid.
fn lay_act(alloc: Global, edit: &mut StateEdit, act: Act) -> Result<Option<Reason>, NoMemory>
    ensures reason { IfOk result (λ bad. bad ≡ reason_of_act (plain edit.old.state) act) }
    ensures effect { IfOk result (λ bad. IfNone bad (plain edit.new.state ≡ effect (plain edit.old.state) act)) }
    ensures version { edit.new.state.version ≡ edit.old.state.version }
{
    let update = Update { alone: false, act };
    match apply(alloc, edit, &update) {
        Ok(Applied::Changed) => {
            drop(update);
            Ok(None)
        }
        Ok(Applied::Invalid(reason)) => {
            drop(update);
            Ok(Some(reason))
        }
        Err(fault) => {
            drop(update);
            Err(fault)
        }
    }
}
