// Counts that are kept up from what differs between two maps.
ghost use Rattle.std.specs.Prelude.{◌≡◌, ◌+◌, ◌^◌, ◌<◌, IfSome, length, option_copied, if◌then◌else◌};
ghost use Rattle.node_map.specs.Follows.{Follows};
ghost use Rattle.state_counts.specs.Counted.{KeepsUp, is_up, ports_up};

use node_map::NodeMap;
use state_delta::map_delta;
use switch_model::PortRec;

/// The count of the new map's entries, and of some others, from that of the old map's and the same
/// others: none where the count stands at the last number of its type, and so may stand for more.
pub(crate) fn count_on<T>(count: u64, old: &NodeMap<T>, new: &NodeMap<T>) -> Option<u64>
    requires { Follows old.now.nodes new.now.nodes }
    ensures { IfSome result (λ now. KeepsUp count (length old.now.entries) now (length new.now.entries)) }
{
    if count == u64::MAX {
        return None;
    }
    old.shape();
    new.shape();
    let mut now = count;
    for change in map_delta(old, new) {
        now = moved_by(now, change.old.is_some(), change.new.is_some())?;
    }
    Some(now)
}

/// The count of the ports that are up in the new map, from that of those in the old map, as
/// `count_on` does it.
pub(crate) fn up_on(count: u64, old: &NodeMap<PortRec>, new: &NodeMap<PortRec>) -> Option<u64>
    requires { Follows old.now.nodes new.now.nodes }
    ensures { IfSome result (λ now. KeepsUp count (ports_up old.now.entries) now (ports_up new.now.entries)) }
{
    if count == u64::MAX {
        return None;
    }
    old.shape();
    new.shape();
    let mut now = count;
    for change in map_delta(old, new) {
        now = moved_by(now, is_up(change.old), is_up(change.new))?;
    }
    Some(now)
}

/// Whether there is a port, and it is up.
fn is_up(port: Option<&PortRec>) -> bool
    ensures { result ≡ is_up (option_copied port.entry) }
{
    match port {
        Some(rec) => rec.up,
        None => false,
    }
}

/// The count after one key's change: by whether it was counted, and whether it is. None where the
/// count doesn't fit its type.
fn moved_by(count: u64, was: bool, is: bool) -> Option<u64>
    ensures fits { IfSome result (λ now. now < 2 ^ 64) }
    ensures moved { IfSome result (λ now. now + (if was then 1 else 0) ≡ count + (if is then 1 else 0)) }
{
    if was == is {
        return Some(count);
    }
    if is {
        count.checked_add(1)
    } else {
        count.checked_sub(1)
    }
}
