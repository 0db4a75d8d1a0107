// The words for tables, reasons, verdicts, kinds of round and ports' states.
ghost use Rattle.std.specs.Prelude.{◌≡◌, Some, codes, if◌then◌else◌};
ghost use Rattle.report_text.specs.EntryText.{table_text, reason_text, verdict_text, kind_text};
ghost use Rattle.report_text.specs.RowText.{mark_text, up_text};
ghost use Rattle.script_text.specs.UpdateText.{client_text};

use net_types::{Client, Table};
use std::fmt;
use switch_model::{Reason, RoundKind, Verdict};

/// The word for a table of the chip.
pub fn table_word(table: Table) -> &'static str
    ensures { result.now ≡ table_text table }
{
    match table {
        Table::L2 => "l2",
        Table::Host => "host",
        Table::Group => "group",
        Table::Route => "route",
    }
}

/// The word for a reason: its name.
pub fn reason_word(reason: Reason) -> &'static str
    ensures { result.now ≡ reason_text reason }
{
    match reason {
        Reason::NoVlan => "NoVlan",
        Reason::VlanExists => "VlanExists",
        Reason::VlanInUse => "VlanInUse",
        Reason::NoPort => "NoPort",
        Reason::PortExists => "PortExists",
        Reason::PortInUse => "PortInUse",
        Reason::NoIntf => "NoIntf",
        Reason::IntfExists => "IntfExists",
        Reason::VlanHasIntf => "VlanHasIntf",
        Reason::IntfInUse => "IntfInUse",
        Reason::BadMac => "BadMac",
        Reason::AddrExists => "AddrExists",
        Reason::AddrOverlap => "AddrOverlap",
        Reason::NoAddr => "NoAddr",
        Reason::AddrInUse => "AddrInUse",
        Reason::NotInSubnet => "NotInSubnet",
        Reason::PortNotInVlan => "PortNotInVlan",
        Reason::NoNeighbor => "NoNeighbor",
        Reason::NoMac => "NoMac",
        Reason::InterfaceClient => "InterfaceClient",
        Reason::FamilyMix => "FamilyMix",
        Reason::NoHops => "NoHops",
        Reason::TooManyHops => "TooManyHops",
        Reason::DoubleHop => "DoubleHop",
        Reason::DoublePrefix => "DoublePrefix",
        Reason::NoRoute => "NoRoute",
    }
}

pub(crate) fn kind_word(kind: RoundKind) -> &'static str
    ensures { result.now ≡ kind_text kind }
{
    match kind {
        RoundKind::Whole => "whole",
        RoundKind::One => "one",
    }
}

pub(crate) fn start_word(warm: bool) -> &'static str
    ensures { result.now ≡ (if warm then codes "warm" else codes "cold") }
{
    if warm { "warm" } else { "cold" }
}

pub(crate) fn up_word(up: bool) -> &'static str
    ensures { result.now ≡ up_text up }
{
    if up { "up" } else { "down" }
}

/// The word for a client.
pub(crate) fn client_word(client: Client) -> &'static str
    ensures { result.now ≡ client_text client }
{
    match client {
        Client::Interface => "interface",
        Client::Static => "static",
        Client::Openr => "openr",
        Client::Ebgp => "ebgp",
        Client::Ibgp => "ibgp",
    }
}

pub(crate) fn mark_word(live: bool) -> &'static str
    ensures { result.now ≡ mark_text live }
{
    if live { "live" } else { "dead" }
}

/// A verdict as it is printed.
#[derive(Clone, Copy)]
pub(crate) struct VerdictText(pub(crate) Verdict);

impl fmt::Display for VerdictText {
    ghost output = { λ v. Some (verdict_text v.0) };

    fn fmt<W: fmt::Write>(&self, f: &mut fmt::Formatter<W>) -> fmt::Result {
        match self.0 {
            Verdict::Accepted => write!(f, "accepted"),
            Verdict::Invalid(reason) => {
                let reason = reason_word(reason);
                write!(f, "invalid {reason}")
            }
            Verdict::Full(table) => {
                let table = table_word(table);
                write!(f, "full {table}")
            }
        }
    }
}
