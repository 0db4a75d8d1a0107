// Where observers stand, a line each.
ghost use Rattle.std.specs.Prelude.{◌≡◌, ◌++◌, [], ◌∷◌, OnOk};
ghost use Rattle.answer_forms.specs.AnswerText.{totals_text};
ghost use Rattle.report_text.specs.Report.{observers_part, observers_text};

use net_types::{ItemList, NoMemory};
use script_text::Page;
use switch_model::Totals;

/// The version and the counts at which each observer stands, in the order of the observers.
pub type StandingList = ItemList<(u64, Totals)>;

/// The counts of a state.
pub(crate) fn write_totals(out: &mut Page, totals: &Totals) -> Result<(), NoMemory>
    ensures { OnOk result (out.new ≡ out.old ++ totals_text totals.now) }
{
    let ports = totals.ports;
    let up = totals.up;
    let vlans = totals.vlans;
    let intfs = totals.intfs;
    write!(out, "ports {ports} up {up} vlans {vlans} intfs {intfs}")?;
    let macs = totals.macs;
    let neighbors = totals.neighbors;
    let routes = totals.routes;
    let fib = totals.fib;
    write!(
        out,
        " macs {macs} neighbors {neighbors} routes {routes} fib {fib}"
    )
}

fn write_observer(out: &mut Page, number: usize, standing: &(u64, Totals)) -> Result<(), NoMemory>
    ensures { OnOk result (out.new ≡ out.old ++ observers_text number (standing.now ∷ [])) }
{
    let version = standing.0;
    write!(out, "observer {number} version {version} ")?;
    write_totals(out, &standing.1)?;
    out.push_bytes(b"\n")
}

fn write_standings(out: &mut Page, standings: &[(u64, Totals)]) -> Result<(), NoMemory>
    ensures { OnOk result (out.new ≡ out.old ++ observers_text 0 standings.now) }
{
    let mut number = 0;
    for standing in standings {
        write_observer(out, number, standing)?;
        number += 1;
    }
    Ok(())
}

/// A line for each observer, and the end of the report.
pub fn write_observers(out: &mut Page, standings: &StandingList) -> Result<(), NoMemory>
    ensures { OnOk result (out.new ≡ out.old ++ observers_part standings.now) }
{
    let count = standings.len();
    writeln!(out, "observers {count}")?;
    write_standings(out, standings.as_slice())?;
    out.push_bytes(b"end\n")
}
