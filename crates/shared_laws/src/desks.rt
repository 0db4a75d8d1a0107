// Desks.
ghost use Rattle.std.specs.Prelude.{◌≡◌, ◌≤◌, ◌<◌, ◌++◌, [], List, drop, length};
ghost use Rattle.keyed.specs.Prefix.{IsPrefix};
ghost use Rattle.net_types.specs.Capacity.{Fits};
ghost use Rattle.shared_laws.specs.Calls.{IsLoaded};
ghost use Rattle.shared_laws.specs.Ground.{DeskView, GroundView, HasRoom, IsDesk, journal_at, with_sent, with_settled};
ghost use Rattle.switch_model.specs.declared.act.Submission.{Submission};
ghost use Rattle.switch_model.specs.declared.journal.Round.{Round};
ghost use Rattle.switch_model.specs.Journal.{Journal, strip, with_round};
ghost use Rattle.switch_model.specs.Legal.{IsRun};
ghost use Rattle.switch_model.specs.MayComeOf.{MayComeOf, SettlesNext};
ghost use Rattle.switch_model.specs.Round.{next_round};
ghost use Rattle.switch_model.specs.Rows.{rows};

/// A desk begins with nothing, and is still one with a submission more below the limit, and with a round more
/// that settles what is pending.
pub fn desks_grow()
    ensures start { (g : GroundView) → Fits (rows g.opening.state) g.opening.caps → HasRoom g → IsDesk (record { basis = g; sent = []; rounds = [] }) }
    ensures submission { (d : DeskView) (s : Submission) → length d.sent < d.basis.limit → IsDesk d → IsDesk (with_sent d s) }
    ensures round { (d : DeskView) (r : Round) → SettlesNext d.sent (journal_at d.basis d.rounds) r → IsDesk d → IsDesk (with_settled d r) }
{}

/// A run that was loaded of what was pending settles next, also where more was submitted since.
pub fn what_is_loaded_settles_next()
    ensures run { (sent : List Submission) (j : Journal) (q : List Submission) → IsLoaded sent j q → 1 ≤ length q → IsRun q }
    ensures front { (sent : List Submission) (j : Journal) (q : List Submission) → IsLoaded sent j q → IsPrefix (strip j ++ q) sent }
    ensures next { (sent : List Submission) (j : Journal) (q : List Submission) → IsRun q → IsPrefix (strip j ++ q) sent → SettlesNext sent j (next_round j q) }
{}

/// What waits is settled from its front: behind a round the rest waits, and all submissions stay.
pub fn rounds_leave_the_rest()
    ensures { (j : Journal) (r : Round) (waiting rest sent : List Submission) → sent ≡ strip j ++ waiting → MayComeOf sent j → SettlesNext sent j r → rest ≡ drop (length r.entries) waiting → strip (with_round j r) ++ rest ≡ sent }
{}
