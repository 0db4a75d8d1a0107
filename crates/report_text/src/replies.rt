// What callers were told, a line each.
ghost use Rattle.std.specs.Prelude.{◌≡◌, ◌++◌, [], ◌∷◌, OnOk, codes};
ghost use Rattle.std.specs.Fmt.{decimal};
ghost use Rattle.report_text.specs.EntryText.{replies_text};
ghost use Rattle.report_text.specs.Report.{replies_part};

use crate::words::VerdictText;
use net_types::{NoMemory, Text};
use script_text::Page;
use switch_model::{Reply, ReplyList};

fn write_reply(out: &mut Page, told: &(u64, Reply)) -> Result<(), NoMemory>
    ensures { OnOk result (out.new ≡ out.old ++ replies_text (told.now ∷ [])) }
{
    let line = told.0;
    match &told.1 {
        Reply::Settled {
            position,
            verdict,
            version,
            front,
        } => {
            let verdict = VerdictText(*verdict);
            writeln!(
                out,
                "{line} settled {position} {verdict} version {version} front {front}"
            )
        }
        Reply::HistoryFull => writeln!(out, "{line} history-full"),
        Reply::Settle(count) => writeln!(out, "{line} settle {count}"),
        Reply::Pump(count) => writeln!(out, "{line} pump {count}"),
        Reply::Answer { text, .. } => write_answer(out, line, text),
    }
}

/// An answer's words, behind the line's number.
fn write_answer(out: &mut Page, line: u64, text: &Text) -> Result<(), NoMemory>
    ensures { OnOk result (out.new ≡ out.old ++ (decimal line ++ (codes " " ++ (text.now ++ codes "\n")))) }
{
    write!(out, "{line} ")?;
    out.push_bytes(text.as_slice())?;
    out.push_bytes(b"\n")
}

fn write_reply_lines(out: &mut Page, replies: &[(u64, Reply)]) -> Result<(), NoMemory>
    ensures { OnOk result (out.new ≡ out.old ++ replies_text replies.now) }
{
    for told in replies {
        write_reply(out, told)?;
    }
    Ok(())
}

/// What callers were told: how many replies there are, and a line for each.
pub fn write_replies(out: &mut Page, replies: &ReplyList) -> Result<(), NoMemory>
    ensures { OnOk result (out.new ≡ out.old ++ replies_part replies.now) }
{
    let count = replies.len();
    writeln!(out, "replies {count}")?;
    write_reply_lines(out, replies.as_slice())
}
