// What holds of every state.
ghost use Rattle.std.specs.Prelude.{◌≡◌, ◌↔◌, ℕ, List, map};
ghost use Rattle.std.specs.List.{Contains};
ghost use Rattle.net_types.specs.Cidr.{Cidr};
ghost use Rattle.switch_model.specs.declared.act.Act.{Act};
ghost use Rattle.switch_model.specs.declared.journal.Entry.{Entry};
ghost use Rattle.switch_model.specs.Effect.{effect};
ghost use Rattle.switch_model.specs.Legal.{AreRightInRun};
ghost use Rattle.switch_model.specs.PlainState.{ArePartsInOrder, PlainState, Rib};
ghost use Rattle.switch_model.specs.Reach.{Lead, Reaches, all_reached};
ghost use Rattle.switch_model.specs.Touched.{Touched, touched, touched_both, touched_entries, touched_run, untouched};
ghost use Rattle.switch_model.specs.Untouched.{SameUntouched};

/// What the chains of at most as many further members as there are routes reach is what the chains
/// of any length reach: a chain that comes back to a member can be cut short there.
pub fn short_chains_reach_all()
    ensures { (rib : Rib) (vrf : ℕ) (prefix : Cidr) (lead : Lead) → Contains (all_reached rib vrf prefix) lead ↔ Reaches rib vrf prefix lead }
{}

/// The effect of an act changes nothing but under the keys that the act touches.
pub fn effects_are_on_touched_keys()
    ensures { (m : PlainState) (act : Act) → ArePartsInOrder m → SameUntouched (touched m act) m (effect m act) }
{}

/// What several changes touch in turn doesn't depend on how they are put together. It does nothing
/// when it runs.
pub fn touched_keys_add_up()
    ensures together { (a b c : Touched) → touched_both (touched_both a b) c ≡ touched_both a (touched_both b c) }
    ensures none { (a : Touched) → touched_both a untouched ≡ a }
{}

/// The entries of a round that was judged as a run touch what its updates touch as a run. It does
/// nothing when it runs.
pub fn entries_touch_as_their_updates()
    ensures { (m : PlainState) (es : List Entry) → AreRightInRun m es → touched_entries m es ≡ touched_run m (map (λ e. e.update) es) }
{}
