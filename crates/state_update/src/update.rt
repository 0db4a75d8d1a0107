// Updates of an edit.
ghost use Rattle.std.specs.Prelude.{◌≡◌, IfOk, OnOk};
ghost use Rattle.switch_model.specs.declared.verdict.Reason.{Reason};
ghost use Rattle.switch_model.specs.Effect.{effect};
ghost use Rattle.switch_model.specs.Reason.{reason, reason_of_act};
ghost use Rattle.switch_model.specs.Sound.{IsSound};
ghost use Rattle.switch_model.specs.Touched.{touched};
ghost use Rattle.switch_state.specs.Paths.{PartsMade};
ghost use Rattle.switch_state.specs.Plain.{plain};
ghost use Rattle.state_update.specs.Applied.{outcome};
ghost use Rattle.state_update.specs.Births.{BornAt, KeepsBirths, KeepsRest};

use crate::kind::{Kind, kind_of};
use crate::neighbors::change_neighbors;
use crate::ports::change_ports;
use crate::reason::reason_of;
use crate::routes::change_routes;
use net_types::NoMemory;
use std::alloc::Global;
use switch_model::{Act, Reason, Update};
use switch_state::StateEdit;

/// What became of an update.
#[derive(Clone, Copy, Debug, PartialEq, Eq)]
pub enum Applied {
    /// It was done.
    Changed,
    /// It was refused, and the edit is as before.
    Invalid(Reason),
}

/// Applies an update to what an edit has come to, unless a reason holds against it. Whether the
/// update is to stand alone plays no part, and the FIB isn't touched. An entry that is put under a
/// key that is there is put over it. A sound state stays sound, a key that is there keeps its birth,
/// and new nodes are made on the paths of the update's own keys alone. After a refusal of memory the
/// edit may have come to a part of the effect, and is to be dropped.
pub fn apply(alloc: Global, edit: &mut StateEdit, update: &Update) -> Result<Applied, NoMemory>
    ensures answer { IfOk result (λ a. a ≡ outcome (reason (plain edit.old.state) update.now)) }
    ensures changed { IfOk result (λ a. a ≡ Applied.Changed → plain edit.new.state ≡ effect (plain edit.old.state) update.now.act) }
    ensures invalid { IfOk result (λ a. (r : Reason) → a ≡ Applied.Invalid r → edit.new ≡ edit.old) }
    ensures sound { IfOk result (λ _. IsSound (plain edit.old.state) → IsSound (plain edit.new.state)) }

    ensures base { edit.new.base ≡ edit.old.base }
    ensures version { edit.new.state.version ≡ edit.old.state.version }
    ensures fibs { edit.new.state.fibs ≡ edit.old.state.fibs }
    ensures births { KeepsBirths edit.old.state edit.new.state }
    ensures born { BornAt edit.old.state.version edit.old.state edit.new.state }
    ensures paths { PartsMade edit.old.state.version (touched (plain edit.old.state) update.now.act) edit.old.state edit.new.state }
{
    apply_act(alloc, edit, &update.act)
}

pub(crate) fn apply_act(alloc: Global, edit: &mut StateEdit, act: &Act) -> Result<Applied, NoMemory>
    ensures answer { IfOk result (λ a. a ≡ outcome (reason_of_act (plain edit.old.state) act.now)) }
    ensures changed { IfOk result (λ a. a ≡ Applied.Changed → plain edit.new.state ≡ effect (plain edit.old.state) act.now) }
    ensures invalid { IfOk result (λ a. (r : Reason) → a ≡ Applied.Invalid r → edit.new ≡ edit.old) }
    ensures sound { IfOk result (λ _. IsSound (plain edit.old.state) → IsSound (plain edit.new.state)) }
    ensures rest { KeepsRest (touched (plain edit.old.state) act.now) edit.old edit.new }
{
    if let Some(reason) = reason_of(alloc, edit, act)? {
        return Ok(Applied::Invalid(reason));
    }
    change(alloc, edit, act)?;
    Ok(Applied::Changed)
}

fn change(alloc: Global, edit: &mut StateEdit, act: &Act) -> Result<(), NoMemory>
    ensures effect { OnOk result (plain edit.new.state ≡ effect (plain edit.old.state) act.now) }
    ensures rest { KeepsRest (touched (plain edit.old.state) act.now) edit.old edit.new }
{
    match kind_of(act) {
        Kind::Ports => change_ports(alloc, edit, act),
        Kind::Neighbors => change_neighbors(edit, act),
        Kind::Routes => change_routes(alloc, edit, act),
    }
}
