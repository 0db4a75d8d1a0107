// The line that tells of what a core has published.
ghost use Rattle.std.specs.Prelude.{◌≡◌, ◌++◌, IfOk, OnOk};
ghost use Rattle.answer_forms.specs.AnswerText.{totals_text};
ghost use Rattle.chip_core.specs.Chip.{view_of};
ghost use Rattle.core_laws.specs.Published.{journal_of};
ghost use Rattle.offline_run.specs.Check.{counts_line, ok_line};
ghost use Rattle.switch_model.specs.Journal.{fold, version_of};
ghost use Rattle.switch_model.specs.Rows.{rows};
ghost use Rattle.switch_model.specs.Totals.{totals};
ghost use Rattle.switch_state.specs.Plain.{plain};
ghost use Rattle.state_laws.specs.Fib.{HasFib};

use agent_core::Core;
use chip_core::HwSwitch;
use net_types::NoMemory;
use observers::StateObserver;
use script_text::Page;
use state_counts::count_state;
use std::alloc::Global;
use switch_model::Totals;
use switch_state::SwitchState;

/// The line that tells of the state of a core's journal, and its version.
pub(crate) fn core_line<C: HwSwitch, O: StateObserver>(
    alloc: Global,
    core: &Core<C, O>,
) -> Result<Vec<u8>, NoMemory>
    ensures line { IfOk result (λ line. line.items ≡ ok_line (version_of (journal_of core.now.published)) (fold (journal_of core.now.published))) }
    ensures shown { view_of core.now.raw ≡ rows (fold (journal_of core.now.published)) }
{
    core.shape();
    let published = core.published();
    published.shape();
    state_line(alloc, published.state())
}

/// The line that tells of a state with its FIB.
fn state_line(alloc: Global, state: &SwitchState) -> Result<Vec<u8>, NoMemory>
    requires fib { HasFib state.now }
    ensures line { IfOk result (λ line. line.items ≡ ok_line state.now.version (plain state.now)) }
{
    let totals = counts(state);
    counts_line(alloc, state.version(), &totals)
}

/// The line with a version and counts.
fn counts_line(alloc: Global, version: u64, totals: &Totals) -> Result<Vec<u8>, NoMemory>
    ensures line { IfOk result (λ line. line.items ≡ counts_line version totals.now) }
{
    let mut page = Page::new(alloc);
    write!(page, "ok version {version} ")?;
    write_totals(&mut page, totals)?;
    page.push_bytes(b"\n")?;
    Ok(page.into_bytes())
}

/// The counts of a state with its FIB.
fn counts(state: &SwitchState) -> Totals
    requires fib { HasFib state.now }
    ensures counts { result ≡ totals (plain state.now) }
{
    count_state(state)
}

/// The counts of a state.
fn write_totals(out: &mut Page, totals: &Totals) -> Result<(), NoMemory>
    ensures written { OnOk result (out.new ≡ out.old ++ totals_text totals.now) }
{
    let ports = totals.ports;
    let up = totals.up;
    let vlans = totals.vlans;
    let intfs = totals.intfs;
    write!(out, "ports {ports} up {up} vlans {vlans} intfs {intfs}")?;
    let macs = totals.macs;
    let neighbors = totals.neighbors;
    let routes = totals.routes;
    let fib = totals.fib;
    write!(
        out,
        " macs {macs} neighbors {neighbors} routes {routes} fib {fib}"
    )
}
