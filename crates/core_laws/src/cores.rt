// What a core stands for.
ghost use Rattle.std.specs.Prelude.{◌≡◌, ◌⊎◌, ℕ, true, []};
ghost use Rattle.std.specs.List.{AllByRecursion};
ghost use Rattle.chip_core.specs.Chip.{IsChip, view_of};
ghost use Rattle.core_laws.specs.Audience.{AudienceView, IsLatest, IsStanding, WereBegun};
ghost use Rattle.core_laws.specs.Published.{CoreView, IsCore, IsPublished, journal_of};
ghost use Rattle.net_types.specs.Capacity.{Fits};
ghost use Rattle.net_types.specs.declared.table.Caps.{Caps};
ghost use Rattle.net_types.specs.declared.table.Tables.{Tables};
ghost use Rattle.switch_model.specs.Journal.{fold};
ghost use Rattle.switch_model.specs.Legal.{IsLegal};
ghost use Rattle.switch_model.specs.Rows.{rows};
ghost use Rattle.switch_model.specs.Sound.{IsSound};
ghost use Rattle.switch_state.specs.Follows.{Follows};
ghost use Rattle.switch_state.specs.Plain.{plain};
ghost use Rattle.switch_state.specs.StateView.{StateView};
ghost use Rattle.state_laws.specs.Fib.{HasFib};

/// A core's journal is legal. The state that it gives is sound, its rows fit, and the chip shows them.
/// Each observer stands at the end of some round; and one that is sure, or never refused, at the last.
pub fn cores_stand_for_their_journals()
    ensures legal { (c : CoreView) → IsCore c → IsLegal (journal_of c.published) }
    ensures sound { (c : CoreView) → IsCore c → IsPublished c.published → IsSound (plain c.published.state) }
    ensures fits { (c : CoreView) → IsCore c → IsPublished c.published → Fits (rows (plain c.published.state)) c.caps }
    ensures view { (c : CoreView) → IsCore c → IsPublished c.published → view_of c.raw ≡ rows (fold (journal_of c.published)) }
    ensures standing { (c : CoreView) → IsCore c → AllByRecursion (IsStanding (journal_of c.published)) c.audience.watches }
    ensures latest { (c : CoreView) → IsCore c → IsPublished c.published → AllByRecursion (λ w. (w.sure ≡ true) ⊎ (w.refusals ≡ 0) → IsLatest (journal_of c.published) w) c.audience.watches }
{}

/// What a chip holds fits it.
pub fn chips_hold_what_fits()
    ensures { (caps : Caps) (raw : Tables) → IsChip caps raw → Fits (view_of raw) caps }
{}

/// A sound state with its FIB, on a chip that shows its rows already, is a core once its observers were
/// begun. No row is written.
pub fn chips_that_show_the_rows_are_adopted()
    ensures { (s : StateView) (raw : Tables) (caps : Caps) (writes : ℕ) (before now : AudienceView) → IsSound (plain s) → HasFib s → Follows s s → IsChip caps raw → view_of raw ≡ rows (plain s) → WereBegun s before now →
        IsCore (record { raw = raw; caps = caps; writes = writes; published = record { base = s; state = s; rounds = []; caps = caps }; audience = now }) }
{}
