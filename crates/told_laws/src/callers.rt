// What each of several callers is told.
ghost use Rattle.std.specs.Prelude.{◌≡◌, ◌≤◌, ℕ, [], List, Option, length};
ghost use Rattle.keyed.specs.Prefix.{IsPrefix};
ghost use Rattle.script_text.specs.declared.script.Line.{Line};
ghost use Rattle.switch_model.specs.declared.act.Submission.{Submission};
ghost use Rattle.switch_model.specs.declared.reply.Reply.{Reply};
ghost use Rattle.switch_model.specs.Journal.{Journal, IsJournalPrefix, len, own, strip};
ghost use Rattle.told_laws.specs.Course.{Ticket};
ghost use Rattle.told_laws.specs.Keeping.{HasTold, IsNew, Keeps, done_after, now_after};
ghost use Rattle.told_laws.specs.Serving.{Grew, Serves, Sight};

/// A caller's record holds before its first line, and each line that is served keeps it: what was told
/// so far is true of what the caller has seen, and the tickets are those of the lines that wait. After
/// the last phase every line has its reply.
pub fn lines_keep_what_is_told()
    ensures first { (limit i : ℕ) (p : Sight) → p.number ≡ i → IsNew p → Keeps limit i p [] [] [] [] }
    ensures line { (limit i : ℕ) (p q : Sight) (ws vs : List Ticket) (line : Option Line) (ts us : List (ℕ × Reply)) (done : List (List Line)) (now : List Line) →
        Grew p q → Serves limit p q ws vs line ts us → Keeps limit i p ws ts done now → Keeps limit i q vs us (done_after line done now) (now_after line now) }
    ensures last { (limit i : ℕ) (p : Sight) (ws : List Ticket) (ts : List (ℕ × Reply)) (done : List (List Line)) → Keeps limit i p ws ts done [] → HasTold (limit ≤ length p.sent) p.mine p.journal p.rounds i done ts }
{}

/// What a caller was told stays true as more is submitted and the journal grows.
pub fn what_was_told_stays_true()
    ensures { (limit n m : ℕ) (mine : List Submission) (j k : Journal) (rounds : List ℕ) (i : ℕ) (done : List (List Line)) (ts : List (ℕ × Reply)) →
        n ≤ m → IsJournalPrefix j k → HasTold (limit ≤ n) mine j rounds i done ts → HasTold (limit ≤ m) mine k rounds i done ts }
{}

/// Once all lines of a caller have their replies, all that it submitted is settled; once this is so of
/// every caller, all is settled; and then what each was told is true of the whole journal, which is as
/// long as the limit where a caller was refused.
pub fn all_is_settled_in_the_end()
    ensures own { (limit n : ℕ) (p : Sight) (sent : List Submission) (j : Journal) (done : List (List Line)) (ts : List (ℕ × Reply)) →
        HasTold (limit ≤ n) p.mine p.journal p.rounds p.number done ts → IsJournalPrefix p.journal j → p.mine ≡ own p.number sent → IsPrefix (strip j) sent → own p.number (strip j) ≡ own p.number sent }
    ensures all { (j : Journal) (sent : List Submission) → IsPrefix (strip j) sent → ((i : ℕ) → own i (strip j) ≡ own i sent) → strip j ≡ sent }
    ensures told { (limit : ℕ) (p : Sight) (sent : List Submission) (j : Journal) (done : List (List Line)) (ts : List (ℕ × Reply)) →
        HasTold (limit ≤ length p.sent) p.mine p.journal p.rounds p.number done ts → IsPrefix p.sent sent → IsJournalPrefix p.journal j → p.mine ≡ own p.number sent → length sent ≤ limit → strip j ≡ sent →
        HasTold (len j ≡ limit) (own p.number (strip j)) j p.rounds p.number done ts }
{}
