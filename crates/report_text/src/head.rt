// What a report begins with.
ghost use Rattle.std.specs.Prelude.{◌≡◌, ◌++◌, OnOk};
ghost use Rattle.report_text.specs.Report.{head_part};

use crate::words::start_word;
use net_types::{Caps, NoMemory};
use script_text::Page;

/// How the run was opened: warm, or cold, and with which capacities.
#[derive(Clone, Copy, Debug, PartialEq, Eq)]
pub struct ReportHead {
    pub warm: bool,
    pub caps: Caps,
}

/// What a report begins with: how the run was opened, and at which version.
pub fn write_head(out: &mut Page, head: &ReportHead, version: u64) -> Result<(), NoMemory>
    ensures { OnOk result (out.new ≡ out.old ++ head_part head.now.warm head.now.caps version) }
{
    let start = start_word(head.warm);
    writeln!(out, "report 1\nstart {start} version {version}")?;
    let l2 = head.caps.l2;
    let host = head.caps.host;
    let group = head.caps.group;
    let route = head.caps.route;
    writeln!(out, "caps {l2} {host} {group} {route}")
}
