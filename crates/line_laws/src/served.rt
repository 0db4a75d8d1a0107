// Lines that were served.
ghost use Rattle.std.specs.Prelude.{ℕ, List, Option};
ghost use Rattle.line_laws.specs.Serving.{Serves};
ghost use Rattle.line_laws.specs.Tickets.{sight_of};
ghost use Rattle.script_text.specs.declared.script.Line.{Line};
ghost use Rattle.shared_laws.specs.Callers.{Grew, Seen};
ghost use Rattle.shared_laws.specs.Ground.{GroundView};
ghost use Rattle.switch_model.specs.declared.reply.Reply.{Reply};
ghost use Rattle.told_laws.specs.Course.{Ticket};
ghost use Rattle.told_laws.specs.Serving.{Grew as GrewInSight, Serves as ServesInSight};
ghost use Rattle.turn_book.specs.Passes.{IsSameCaller};

/// A line that was served on a pass was served in terms of what its caller has seen: so what a caller was told of its
/// lines stays true, line by line.
pub fn lines_that_are_served_are_told()
    ensures grew { (g : GroundView) (p q : Seen) → IsSameCaller p q → Grew p q → GrewInSight (sight_of g p) (sight_of g q) }
    ensures serves { (g : GroundView) (p q : Seen) (before left : List Ticket) (line : Option Line) (ts us : List (ℕ × Reply)) → Serves g p q before left line ts us → ServesInSight g.limit (sight_of g p) (sight_of g q) before left line ts us }
{}
