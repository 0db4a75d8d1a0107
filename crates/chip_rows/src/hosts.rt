// The rows of the host table, and the keys of hosts by slot.
ghost use Rattle.std.specs.Prelude.{◌≡◌, IfOk, map};
ghost use Rattle.std.specs.Ordering.{nat_cmp};
ghost use Rattle.keyed.specs.Keyed.{Ascends, at};
ghost use Rattle.keyed.specs.Named.{AreDistinct, gathered};
ghost use Rattle.net_types.specs.KeyOrder.{host_cmp};
ghost use Rattle.chip_core.specs.Slots.{host_entries};
ghost use Rattle.chip_rows.specs.BySlot.{host_keys};

use crate::sorted::by_key;
use net_types::{HostKey, HostRow, NoMemory};
use std::alloc::Global;

/// The key of each host, by slot.
pub(crate) fn host_keys(
    alloc: Global,
    hosts: &[(u32, HostKey, HostRow)],
) -> Result<Vec<(u32, HostKey)>, NoMemory>
    ensures { IfOk result (λ keys. keys.items ≡ host_keys hosts.now) }
{
    let mut keys = Vec::with_capacity(alloc, hosts.len())?;
    for host in hosts {
        keys.push((host.0, host.1))?;
    }
    Ok(keys)
}

/// The key in a slot.
pub(crate) fn key_at(keys: &[(u32, HostKey)], slot: u32) -> Option<HostKey>
    requires { Ascends nat_cmp keys.now }
    ensures { result ≡ at nat_cmp slot keys.now }
{
    keyed::get(keys, &slot).copied()
}

/// The rows of the host table, by ascending key.
pub(crate) fn host_rows(
    alloc: Global,
    hosts: &[(u32, HostKey, HostRow)],
) -> Result<Vec<(HostKey, HostRow)>, NoMemory>
    requires { AreDistinct host_cmp (λ host. host.0) (host_entries hosts.now) }
    ensures { IfOk result (λ rows. rows.items ≡ gathered host_cmp (λ host. host) (host_entries hosts.now)) }
{
    let rows = rows_by_slot(alloc, hosts)?;
    Ok(by_key(rows))
}

/// The rows of the host table, in the order of their slots.
fn rows_by_slot(
    alloc: Global,
    hosts: &[(u32, HostKey, HostRow)],
) -> Result<Vec<(HostKey, HostRow)>, NoMemory>
    ensures { IfOk result (λ rows. rows.items ≡ map (λ host. (host.1, host.2)) hosts.now) }
{
    let mut rows = Vec::with_capacity(alloc, hosts.len())?;
    for host in hosts {
        rows.push((host.1, host.2))?;
    }
    Ok(rows)
}
