// A caller that is alone.
ghost use Rattle.std.specs.Prelude.{◌≡◌, ◌≤◌, ◌<◌, ℕ, [], length};
ghost use Rattle.journal_laws.specs.SettledAt.{settled_at, with_next};
ghost use Rattle.shared_laws.specs.Callers.{AtRest, Grew, Seen};
ghost use Rattle.shared_laws.specs.Calls.{Counted, RoundsAdded};
ghost use Rattle.shared_laws.specs.Ground.{GroundView, journal_at};
ghost use Rattle.switch_model.specs.Journal.{len, pending, strip};
ghost use Rattle.switch_model.specs.Round.{next_round, run};

/// A caller that is alone has submitted all that there is and run every round. So a call that submits nothing
/// leaves all submissions, and one that counts no round the journal; to settle a ticket takes just the rounds
/// until its position is settled; and a pump settles the run of what was pending.
pub fn callers_alone_settle_in_turn()
    ensures seen { (g : GroundView) (p q : Seen) → AtRest g p → AtRest g q → p.callers ≡ 1 → q.callers ≡ 1 → q.mine ≡ p.mine → q.seen ≡ p.seen }
    ensures look { (g : GroundView) (p q : Seen) → AtRest g p → AtRest g q → p.callers ≡ 1 → q.callers ≡ 1 → Grew p q → q.rounds ≡ p.rounds → q.jseen ≡ p.jseen }
    ensures settled { (g : GroundView) (p q : Seen) (position : ℕ) → AtRest g p → AtRest g q → p.callers ≡ 1 → q.callers ≡ 1 → q.mine ≡ p.mine → Grew p q → RoundsAdded g p q position → position < len (journal_at g q.jseen) → position < length p.seen →
        journal_at g q.jseen ≡ settled_at (length p.seen) p.seen position (journal_at g p.jseen) }
    ensures pumped { (g : GroundView) (p q : Seen) (k : ℕ) → AtRest g p → AtRest g q → p.callers ≡ 1 → q.callers ≡ 1 → q.mine ≡ p.mine → Counted g p q k → journal_at g q.jseen ≡ with_next p.seen (journal_at g p.jseen) }
    ensures size { (g : GroundView) (p q : Seen) (k : ℕ) → AtRest g p → AtRest g q → p.callers ≡ 1 → q.callers ≡ 1 → q.mine ≡ p.mine → Counted g p q k → k ≡ length (next_round (journal_at g p.jseen) (run (pending p.seen (journal_at g p.jseen)))).entries }
    ensures none { (g : GroundView) (p q : Seen) → q.seen ≡ p.seen → q.jseen ≡ p.jseen → q.seen ≡ strip (journal_at g q.jseen) → pending p.seen (journal_at g p.jseen) ≡ [] }
{}
