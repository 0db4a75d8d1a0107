// The order of parts.
ghost use Rattle.switch_model.specs.declared.act.Act.{Act};
ghost use Rattle.switch_model.specs.Effect.{effect};
ghost use Rattle.switch_model.specs.PlainState.{ArePartsInOrder, PlainState, empty};
ghost use Rattle.switch_model.specs.Sound.{IsSound};

/// The parts of an empty state and of a sound one ascend by key, and every act keeps them so, a
/// valid one or not.
pub fn parts_stay_in_order()
    ensures empty { ArePartsInOrder empty }
    ensures sound { (m : PlainState) → IsSound m → ArePartsInOrder m }
    ensures effect { (m : PlainState) (act : Act) → ArePartsInOrder m → ArePartsInOrder (effect m act) }
{}
