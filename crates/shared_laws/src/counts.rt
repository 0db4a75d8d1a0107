// The rounds that calls count.
ghost use Rattle.std.specs.Prelude.{◌≡◌, ◌≤◌, ℕ};
ghost use Rattle.shared_laws.specs.Callers.{Grew, Seen};
ghost use Rattle.shared_laws.specs.Calls.{Counted, Pumped, RoundsAdded, Tried};
ghost use Rattle.shared_laws.specs.Ground.{GroundView, IsSoFar, journal_at};
ghost use Rattle.switch_model.specs.Journal.{len};

/// The rounds that two calls count in turn are those of both.
pub fn counted_rounds_add_up()
    ensures none { (g : GroundView) (p q : Seen) (high : ℕ) → q.rounds ≡ p.rounds → RoundsAdded g p q high }
    ensures one { (g : GroundView) (p q : Seen) (k high : ℕ) → (c : Counted g p q k) → len (journal_at g c.before) ≤ high → RoundsAdded g p q high }
    ensures wider { (g : GroundView) (p q : Seen) (high more : ℕ) → high ≤ more → RoundsAdded g p q high → RoundsAdded g p q more }
    ensures both { (g : GroundView) (p q r : Seen) (high : ℕ) → Grew p q → Grew q r → RoundsAdded g p q high → RoundsAdded g q r high → RoundsAdded g p r high }
{}

/// A try at a round that no journal within the limit is too long for is a pump.
pub fn tries_without_bound_are_pumps()
    ensures { (g : GroundView) (old new : Seen) (most k : ℕ) → IsSoFar g new.seen new.jseen → g.limit ≤ most → Tried g old new most k → Pumped g old new k }
{}
