// The entries of a FIB as text, a line an entry.
ghost use Rattle.std.specs.Prelude.{All};
ghost use Rattle.state_keys.specs.PartKeys.{IsFibNumber};

use net_types::{HopSet, NoMemory, RouteKey};
use node_map::{NodeKey, NodeMap};
use script_text::Page;
use state_keys::fib_of;
use std::alloc::Global;
use switch_model::FibEntry;

/// Each entry: its VRF and prefix, and what becomes of packets to it.
pub fn print_fib(alloc: Global, fibs: &NodeMap<FibEntry>) -> Result<Vec<u8>, NoMemory>
    requires { All (λ e. IsFibNumber e.0) fibs.now.entries }
{
    let mut page = Page::new(alloc);
    let printed = print_entries(&mut page, fibs);
    let bytes = page.into_bytes();
    match printed {
        Ok(()) => Ok(bytes),
        Err(fault) => {
            drop(bytes);
            Err(fault)
        }
    }
}

fn print_entries(page: &mut Page, fibs: &NodeMap<FibEntry>) -> Result<(), NoMemory>
    requires { All (λ e. IsFibNumber e.0) fibs.now.entries }
{
    for (number, node) in fibs {
        print_line(page, number, node.value())?;
    }
    Ok(())
}

fn print_line(page: &mut Page, number: &NodeKey, entry: &FibEntry) -> Result<(), NoMemory>
    requires { IsFibNumber number.now }
{
    print_key(page, &fib_of(number))?;
    print_entry(page, entry)
}

fn print_key(page: &mut Page, key: &RouteKey) -> Result<(), NoMemory> {
    page.write_fmt(key.vrf.get())?;
    page.push_bytes(b" ")?;
    page.push_prefix(&key.prefix)
}

fn print_entry(page: &mut Page, entry: &FibEntry) -> Result<(), NoMemory> {
    match entry {
        FibEntry::Connected(_) => page.push_bytes(b" connected")?,
        FibEntry::ToCpu => page.push_bytes(b" cpu")?,
        FibEntry::Discard => page.push_bytes(b" drop")?,
        FibEntry::Forward(hops) => print_hops(page, hops)?,
    }
    page.push_bytes(b"\n")
}

// The first hop and the last one, with how many there are where they are more than two.
fn print_hops(page: &mut Page, hops: &HopSet) -> Result<(), NoMemory> {
    if hops.len() > 2 {
        page.push_bytes(b" ")?;
        page.write_fmt(hops.len())?;
    }
    if let Some(first) = hops.as_slice().first() {
        page.push_bytes(b" ")?;
        page.push_hop(first)?;
    }
    if hops.len() > 1 {
        print_last(page, hops)?;
    }
    Ok(())
}

fn print_last(page: &mut Page, hops: &HopSet) -> Result<(), NoMemory> {
    if let Some(last) = hops.as_slice().last() {
        page.push_bytes(b" ")?;
        page.push_hop(last)?;
    }
    Ok(())
}
