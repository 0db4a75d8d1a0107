// What callers may do, in any order.
ghost use Rattle.std.specs.Prelude.{◌≡◌, ◌≤◌, ◌<◌, ℕ, List, length, map};
ghost use Rattle.std.specs.List.{AllByRecursion, range_with_len};
ghost use Rattle.journal_laws.specs.Worlds.{Answer, AreAllowed, IsWorld, IsWorldOf, Step, after, new_world, numbered, readers, updates_by};
ghost use Rattle.switch_model.specs.declared.act.Submission.{Submission};
ghost use Rattle.switch_model.specs.declared.act.Update.{Update};
ghost use Rattle.net_types.specs.Capacity.{Fits};
ghost use Rattle.switch_model.specs.Journal.{Journal, Opening, own};
ghost use Rattle.switch_model.specs.MayComeOf.{MayComeOf};
ghost use Rattle.switch_model.specs.Rows.{rows};
ghost use Rattle.switch_model.specs.Sound.{IsSound};

/// Whatever steps callers take, the journal may come of what was submitted, which is within the
/// limit; what each caller has seen begins both; each answer is the state, the version and the rows
/// of the journal as it is now, up to the end of one of its rounds; and a caller's answers never
/// fall back. Where the opening state is sound, so is the state of each answer.
pub fn any_steps_lead_to_a_true_world()
    ensures world { (o : Opening) (limit callers : ℕ) (steps : List Step) → Fits (rows o.state) o.caps → AreAllowed limit callers (new_world o) steps → IsWorld o limit (after (new_world o) steps) }
    ensures sound { (o : Opening) (limit callers : ℕ) (steps : List Step) → Fits (rows o.state) o.caps → AreAllowed limit callers (new_world o) steps → IsSound o.state →
        AllByRecursion (λ (a : Answer). IsSound a.state) (after (new_world o) steps).answers }
{}

/// Each journal that may come of submissions, which are numbered caller by caller and within the
/// limit, is that of some steps: so these journals are those that worlds have, and no others.
pub fn each_journal_is_some_worlds()
    ensures { (sent : List Submission) (j : Journal) (limit callers : ℕ) → MayComeOf sent j → length sent ≤ limit → 0 < callers → AllByRecursion (λ (s : Submission). s.caller < callers) sent →
        ((i : ℕ) → map (λ (s : Submission). s.seq) (own i sent) ≡ range_with_len 0 (length (own i sent))) → IsWorldOf limit callers sent j }
{}

/// Each caller's submissions are its updates in the order of its steps, numbered from 0 on.
pub fn callers_submit_in_their_order()
    ensures numbers { (i n : ℕ) (updates : List Update) → map (λ (s : Submission). s.seq) (numbered i n updates) ≡ range_with_len n (length updates) }
    ensures own { (o : Opening) (steps : List Step) (i : ℕ) → own i (after (new_world o) steps).sent ≡ numbered i 0 (updates_by i steps) }
{}

/// Each caller that asks is told, in the order of the steps.
pub fn callers_are_told_in_order()
    ensures { (o : Opening) (steps : List Step) → map (λ (a : Answer). a.caller) (after (new_world o) steps).answers ≡ readers steps }
{}
