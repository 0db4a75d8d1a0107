// Answers to questions about a state.
ghost use Rattle.std.specs.Prelude.{◌≡◌, ◌++◌, OnOk, IfOk, Some, codes, length};
ghost use Rattle.answer_forms.specs.AnswerText.{counts_text, fib_text, port_text, query_text, standing_text};
ghost use Rattle.report_text.specs.AnswerFound.{found_in, found_text, route_text};
ghost use Rattle.script_text.specs.UpdateText.{hops_text};
ghost use Rattle.switch_model.specs.PlainState.{PlainState};
ghost use Rattle.switch_model.specs.declared.query.Query.{Query};

use crate::observers::write_totals;
use crate::tables::write_counts;
use crate::words::{client_word, up_word};
use net_types::{Client, Hop, NoMemory, Port, Prefix, Tables, Text};
use script_text::Page;
use std::alloc::Global;
use switch_model::{FibEntry, PortRec, Totals};

/// The longest match of an ip: its prefix, whose route it is (`Interface` for a subnet of one), and
/// what becomes of packets to it, if anything.
#[derive(Debug, Drop)]
pub struct RouteFound {
    pub prefix: Prefix,
    pub client: Client,
    pub entry: Option<FibEntry>,
}

/// What was found for a question about a state.
#[derive(Debug, Drop)]
pub enum Found {
    /// Its version, which each answer has.
    Version,
    Counts(Totals),
    /// The port that was asked for, where it is there.
    Port { port: Port, found: Option<PortRec> },
    Route(Option<RouteFound>),
}

/// What a state has for a question is printed as the answer to it.
pub fn answers_say_what_is_found()
    ensures { (m : PlainState) (query : Query) → found_text (found_in m query) ≡ query_text m query }
{}

/// On how many entries of the journal an answer rests, and the version after them.
fn write_standing(out: &mut Page, version: u64, front: u64) -> Result<(), NoMemory>
    ensures { OnOk result (out.new ≡ out.old ++ standing_text version front) }
{
    write!(out, "front {front} version {version}")
}

/// A port that is there.
fn write_port_there(out: &mut Page, port: u16, vlan: u16, up: bool) -> Result<(), NoMemory>
    ensures { OnOk result (out.new ≡ out.old ++ port_text port (Some (record { vlan = vlan; up = up }))) }
{
    let state = up_word(up);
    write!(out, "port {port} vlan {vlan} {state}")
}

fn write_port(out: &mut Page, port: Port, found: &Option<PortRec>) -> Result<(), NoMemory>
    ensures { OnOk result (out.new ≡ out.old ++ port_text port found.now) }
{
    let number = port.get();
    match found {
        Some(there) => write_port_there(out, number, there.vlan.get(), there.up),
        None => write!(out, "port {number} none"),
    }
}

/// Hops, each behind a space.
fn write_hops(out: &mut Page, hops: &[Hop]) -> Result<(), NoMemory>
    ensures { OnOk result (out.new ≡ out.old ++ hops_text hops.now) }
{
    for hop in hops {
        out.push_bytes(b" ")?;
        out.push_hop(hop)?;
    }
    Ok(())
}

fn write_hop_set(out: &mut Page, hops: &[Hop]) -> Result<(), NoMemory>
    ensures { OnOk result (out.new ≡ out.old ++ (codes "to" ++ hops_text hops.now)) }
{
    out.push_bytes(b"to")?;
    write_hops(out, hops)
}

/// What becomes of packets.
fn write_entry(out: &mut Page, entry: &Option<FibEntry>) -> Result<(), NoMemory>
    ensures { OnOk result (out.new ≡ out.old ++ fib_text entry.now) }
{
    match entry {
        None => out.push_bytes(b"none"),
        Some(FibEntry::Connected(_)) => out.push_bytes(b"connected"),
        Some(FibEntry::Forward(hops)) => write_hop_set(out, hops.as_slice()),
        Some(FibEntry::ToCpu) => out.push_bytes(b"cpu"),
        Some(FibEntry::Discard) => out.push_bytes(b"drop"),
    }
}

fn write_route(out: &mut Page, found: &RouteFound) -> Result<(), NoMemory>
    ensures { OnOk result (out.new ≡ out.old ++ (codes " " ++ route_text found.now)) }
{
    out.push_bytes(b" route ")?;
    out.push_prefix(&found.prefix)?;
    let client = client_word(found.client);
    write!(out, " {client} ")?;
    write_entry(out, &found.entry)
}

fn write_found(out: &mut Page, found: &Found) -> Result<(), NoMemory>
    ensures { OnOk result (out.new ≡ out.old ++ found_text found.now) }
{
    match found {
        Found::Version => Ok(()),
        Found::Counts(totals) => {
            out.push_bytes(b" ")?;
            write_totals(out, totals)
        }
        Found::Port { port, found } => {
            out.push_bytes(b" ")?;
            write_port(out, *port, found)
        }
        Found::Route(None) => out.push_bytes(b" route none"),
        Found::Route(Some(route)) => write_route(out, route),
    }
}

/// The answer to a question, of a state with its version and the front that the answer rests on.
pub fn answer_text(alloc: Global, version: u64, front: u64, found: &Found) -> Result<Text, NoMemory>
    ensures { IfOk result (λ text. text ≡ standing_text version front ++ found_text found.now) }
{
    let mut out = Page::new(alloc);
    write_standing(&mut out, version, front)?;
    write_found(&mut out, found)?;
    Ok(Text::from_vec(out.into_bytes()))
}

/// The answer to a line that asks for the chip's tables: where it stands, and how many rows each has.
pub fn tables_text(
    alloc: Global,
    version: u64,
    front: u64,
    tables: &Tables,
) -> Result<Text, NoMemory>
    ensures { IfOk result (λ text. text ≡ standing_text version front
        ++ (codes " " ++ counts_text (length tables.now.l2) (length tables.now.host) (length tables.now.group) (length tables.now.route))) }
{
    let mut out = Page::new(alloc);
    write_standing(&mut out, version, front)?;
    out.push_bytes(b" ")?;
    let l2 = tables.l2.len();
    let host = tables.host.len();
    let group = tables.group.len();
    let route = tables.route.len();
    write_counts(&mut out, l2, host, group, route)?;
    Ok(Text::from_vec(out.into_bytes()))
}
