// Sound states.
ghost use Rattle.std.specs.Prelude.{◌≡◌, ◌↔◌, ℕ, true, List, None, Some, Ok};
ghost use Rattle.net_types.specs.Cidr.{Cidr};
ghost use Rattle.switch_laws.specs.Linked.{IsLinked};
ghost use Rattle.switch_model.specs.declared.act.Act.{Act};
ghost use Rattle.switch_model.specs.declared.record.IntfRec.{IntfRec};
ghost use Rattle.switch_model.specs.BestRoute.{has_subnet_in};
ghost use Rattle.switch_model.specs.Effect.{effect};
ghost use Rattle.switch_model.specs.Journal.{Journal, fold};
ghost use Rattle.switch_model.specs.Legal.{IsLegal};
ghost use Rattle.switch_model.specs.PlainState.{PlainState, empty, intf_at};
ghost use Rattle.switch_model.specs.Reason.{reason_of_act};
ghost use Rattle.switch_model.specs.Built.{built, laid};
ghost use Rattle.switch_model.specs.Sound.{IsSound};

/// The state in which nothing stands is sound.
pub fn empty_is_sound()
    ensures { IsSound empty }
{}

/// An act that no reason holds against leaves a sound state sound.
pub fn valid_acts_keep_sound()
    ensures { (m : PlainState) (act : Act) → IsSound m → reason_of_act m act ≡ None → IsSound (effect m act) }
{}

/// What acts build from nothing is sound, and what they lead to from a sound state, whatever
/// numbers they have.
pub fn acts_build_sound_states()
    ensures built { (m : PlainState) (acts : List Act) → built empty acts ≡ Ok m → IsSound m }
    ensures more { (m n : PlainState) (acts : List (ℕ × Act)) → IsSound m → laid m acts ≡ Ok n → IsSound n }
{}

/// A state is sound exactly where its parts ascend, what an entry names is there, and each entry
/// is such as an act may leave.
pub fn sound_states_are_linked()
    ensures { (m : PlainState) → IsSound m ↔ IsLinked m }
{}

/// The state after a legal journal that begins with a sound state is sound.
pub fn legal_journals_keep_sound()
    ensures { (j : Journal) → IsLegal j → IsSound j.opening.state → IsSound (fold j) }
{}

/// In a sound state at most one interface of a VRF has a subnet.
pub fn a_subnet_is_one_interfaces()
    ensures { (m : PlainState) (vrf : ℕ) (subnet : Cidr) (i j : ℕ) (a b : IntfRec) → IsSound m → intf_at m i ≡ Some a → intf_at m j ≡ Some b →
        has_subnet_in vrf subnet (i, a) ≡ true → has_subnet_in vrf subnet (j, b) ≡ true → i ≡ j }
{}
