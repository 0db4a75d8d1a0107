// The report of a run.
ghost use Rattle.std.specs.Prelude.{◌≡◌, IfOk};
ghost use Rattle.core_laws.specs.Published.{journal_of};
ghost use Rattle.keyed.specs.Keyed.{Ascends};
ghost use Rattle.net_types.specs.KeyOrder.{group_cmp};
ghost use Rattle.report_text.specs.Report.{report};

use chip_rows::RowLists;
use core_published::Published;
use journal_report::write_journal;
use net_types::{Caps, NoMemory};
use report_text::{
    ReportHead, StandingList, write_head, write_observers, write_replies, write_rows,
};
use script_text::Page;
use std::alloc::Global;
use switch_model::ReplyList;

/// The report of what is published: how the run was opened, warm or cold and with which capacities, what
/// each line of the script was told, the journal in rounds, the rows of the chip's tables, and where the
/// observers stand. Groups stand in the order of their hosts.
///
/// Memory alone is refused.
pub fn report_bytes(
    alloc: Global,
    warm: bool,
    caps: Caps,
    published: &Published,
    replies: &ReplyList,
    rows: &RowLists,
    standings: &StandingList,
) -> Result<Vec<u8>, NoMemory>
    requires groups { Ascends group_cmp rows.now.group }
    requires caps { caps ≡ published.now.caps }
    ensures report { IfOk result (λ text. text.items ≡ report warm (journal_of published.now) replies.now rows.now standings.now) }
{
    let mut out = Page::new(alloc);
    let head = ReportHead { warm, caps };
    write_head(&mut out, &head, published.base().version())?;
    write_replies(&mut out, replies)?;
    write_journal(&mut out, published)?;
    write_rows(&mut out, rows)?;
    write_observers(&mut out, standings)?;
    Ok(out.into_bytes())
}
