// Where an entry of the FIB leads.
ghost use Rattle.std.specs.Prelude.{◌≡◌, ◌++◌, ◌∷◌, [], IfOk, OnOk, filter_map};
ghost use Rattle.switch_model.specs.Rows.{forward_hosts, host_of_hop, target_of_entry, target_of_hosts};

use net_types::{Hop, HopTarget, HostKey, ItemList, NoMemory, Shared};
use std::alloc::Global;
use switch_model::FibEntry;

/// The hosts that an entry forwards to.
pub(crate) fn entry_hosts(alloc: Global, entry: &FibEntry) -> Result<Vec<HostKey>, NoMemory>
    ensures { IfOk result (λ hosts. hosts.items ≡ forward_hosts entry.now) }
{
    match entry {
        FibEntry::Connected(_) => Ok(Vec::new(alloc)),
        FibEntry::Forward(hops) => hop_hosts(alloc, hops.as_slice()),
        FibEntry::ToCpu => Ok(Vec::new(alloc)),
        FibEntry::Discard => Ok(Vec::new(alloc)),
    }
}

/// What an entry leads to.
pub(crate) fn entry_target(alloc: Global, entry: &FibEntry) -> Result<HopTarget, NoMemory>
    ensures { IfOk result (λ target. target ≡ target_of_entry entry.now) }
{
    match entry {
        FibEntry::Connected(_) => Ok(HopTarget::ToCpu),
        FibEntry::Forward(hops) => {
            let hosts = hop_hosts(alloc, hops.as_slice())?;
            target_of(alloc, hosts)
        }
        FibEntry::ToCpu => Ok(HopTarget::ToCpu),
        FibEntry::Discard => Ok(HopTarget::Discard),
    }
}

/// One host by itself, and more of them as their group.
fn target_of(alloc: Global, hosts: Vec<HostKey>) -> Result<HopTarget, NoMemory>
    ensures { IfOk result (λ target. target ≡ target_of_hosts hosts.items) }
{
    if hosts.len() == 1 {
        let host = hosts[0];
        drop(hosts);
        return Ok(HopTarget::Host(host));
    }
    let group = Shared::of(alloc, ItemList::from_vec(hosts))?;
    Ok(HopTarget::Group(group))
}

/// The hosts that hops lead to.
fn hop_hosts(alloc: Global, hops: &[Hop]) -> Result<Vec<HostKey>, NoMemory>
    ensures { IfOk result (λ hosts. hosts.items ≡ filter_map host_of_hop hops.now) }
{
    let mut hosts = Vec::new(alloc);
    for hop in hops {
        add_hop(&mut hosts, hop)?;
    }
    Ok(hosts)
}

fn add_hop(hosts: &mut Vec<HostKey>, hop: &Hop) -> Result<(), NoMemory>
    ensures { OnOk result (hosts.new.items ≡ hosts.old.items ++ filter_map host_of_hop (hop.now ∷ [])) }
{
    if let Some(intf) = hop.intf {
        hosts.push(HostKey { ip: hop.ip, intf })?;
    }
    Ok(())
}
