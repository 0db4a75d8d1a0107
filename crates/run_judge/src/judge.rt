// A run judged in turn.
ghost use Rattle.std.specs.Prelude.{◌≡◌, IfOk, OnOk, map};
ghost use Rattle.std.specs.List.{list_any};
ghost use Rattle.journal_laws.specs.Settling.{after_run};
ghost use Rattle.switch_model.specs.Journal.{after_verdict};
ghost use Rattle.switch_model.specs.Reason.{reason};
ghost use Rattle.switch_model.specs.Round.{is_accepted, verdict_in_run, with_verdicts};
ghost use Rattle.switch_model.specs.Touched.{touched_run, touched_verdict};
ghost use Rattle.switch_state.specs.Paths.{PartsMade};
ghost use Rattle.switch_state.specs.Plain.{plain};

use net_types::NoMemory;
use state_update::{Applied, apply};
use std::alloc::Global;
use switch_model::{Submission, Update, Verdict};
use switch_state::StateEdit;

// One update, judged after what the edit has come to, and done where it is valid.
fn judge_update(alloc: Global, edit: &mut StateEdit, update: &Update) -> Result<Verdict, NoMemory>
    ensures verdict { IfOk result (λ v. v ≡ verdict_in_run (reason (plain edit.old.state) update.now)) }
    ensures plain { OnOk result (plain edit.new.state ≡ after_verdict (plain edit.old.state) update.now (verdict_in_run (reason (plain edit.old.state) update.now))) }
    ensures paths { OnOk result (PartsMade edit.old.state.version (touched_verdict (plain edit.old.state) update.now (verdict_in_run (reason (plain edit.old.state) update.now))) edit.old.state edit.new.state) }
    ensures base { edit.new.base ≡ edit.old.base }
    ensures version { edit.new.state.version ≡ edit.old.state.version }
    ensures fibs { edit.new.state.fibs ≡ edit.old.state.fibs }
{
    match apply(alloc, edit, update)? {
        Applied::Changed => Ok(Verdict::Accepted),
        Applied::Invalid(reason) => Ok(Verdict::Invalid(reason)),
    }
}

/// Judges the updates of a run in turn, each after the accepted ones before it, as if no table could be
/// full, and does those that are accepted. The edit comes to the state after them, and makes new nodes on
/// the paths of their keys alone. Each submission is copied by one more link to its update. After a
/// refusal of memory the edit may have come to a part of the run, and is to be dropped.
pub fn judge_all(
    alloc: Global,
    edit: &mut StateEdit,
    run: &[Submission],
) -> Result<Vec<(Submission, Verdict)>, NoMemory>
    ensures judged { IfOk result (λ xs. xs.items ≡ with_verdicts (plain edit.old.state) run.now) }
    ensures plain { OnOk result (plain edit.new.state ≡ after_run (plain edit.old.state) run.now) }
    ensures paths { OnOk result (PartsMade edit.old.state.version (touched_run (plain edit.old.state) (map (λ s. s.update) run.now)) edit.old.state edit.new.state) }
    ensures base { edit.new.base ≡ edit.old.base }
    ensures version { edit.new.state.version ≡ edit.old.state.version }
    ensures fibs { edit.new.state.fibs ≡ edit.old.state.fibs }
{
    let mut judged = Vec::new(alloc);
    for submission in run {
        let verdict = judge_update(alloc, edit, &submission.update)?;
        let copy = submission.copy()?;
        judged.push((copy, verdict))?;
    }
    Ok(judged)
}

/// Whether some update was accepted.
pub fn any_accepted(judged: &Vec<(Submission, Verdict)>) -> bool
    ensures some { result ≡ list_any (λ x. is_accepted x.1) judged.now.items }
{
    judged.iter().any(|entry| is_accepted(entry.1))
}

fn is_accepted(verdict: Verdict) -> bool
    ensures { result ≡ is_accepted verdict }
{
    match verdict {
        Verdict::Accepted => true,
        Verdict::Invalid(_) => false,
        Verdict::Full(_) => false,
    }
}
