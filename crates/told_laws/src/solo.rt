// The run of a script of one caller.
ghost use Rattle.std.specs.Prelude.{◌≡◌, ◌≤◌, length};
ghost use Rattle.net_types.specs.Capacity.{Fits};
ghost use Rattle.script_text.specs.declared.script.Script.{Script};
ghost use Rattle.switch_model.specs.Journal.{Opening, strip};
ghost use Rattle.switch_model.specs.MayComeOf.{MayComeOf};
ghost use Rattle.switch_model.specs.Rows.{rows};
ghost use Rattle.told_laws.specs.Course.{solo};
ghost use Rattle.told_laws.specs.Told.{IsSolo, Told, by_line};

/// The journal of one caller's script may come of what the caller submits: it is legal, and each of its
/// rounds settles a run of what is pending. In the end all is settled, and no more than the limit
/// allows was submitted.
pub fn solo_is_reached()
    ensures may_come { (script : Script) (opening : Opening) → Fits (rows opening.state) opening.caps → IsSolo script → MayComeOf (solo script opening).sent (solo script opening).journal }
    ensures settled { (script : Script) (opening : Opening) → Fits (rows opening.state) opening.caps → IsSolo script → strip (solo script opening).journal ≡ (solo script opening).sent }
    ensures limit { (script : Script) (opening : Opening) → Fits (rows opening.state) opening.caps → IsSolo script → length (solo script opening).sent ≤ script.limit }
    ensures opening { (script : Script) (opening : Opening) → Fits (rows opening.state) opening.caps → IsSolo script → (solo script opening).journal.opening ≡ opening }
{}

/// What one caller's script is told, put by its lines, is true of its journal.
pub fn solo_is_told()
    ensures { (script : Script) (opening : Opening) → Fits (rows opening.state) opening.caps → IsSolo script → Told script (solo script opening).journal (by_line (solo script opening).replies) }
{}
