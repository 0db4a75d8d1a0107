// Entries that are counted one by one.
ghost use Rattle.std.specs.Prelude.{◌≡◌, ◌+◌, length, if◌then◌else◌};
ghost use Rattle.switch_model.specs.Totals.{counted};
ghost use Rattle.state_counts.specs.Counted.{ports_up};

use node_map::NodeMap;
use switch_model::PortRec;

/// How many entries the map has.
pub(crate) fn count_all<T>(map: &NodeMap<T>) -> u64
    ensures { result ≡ counted (length map.now.entries) }
{
    let mut count: u64 = 0;
    for _entry in map.walk() {
        count = count.saturating_add(1);
    }
    count
}

/// How many of the ports are up.
pub(crate) fn count_up(ports: &NodeMap<PortRec>) -> u64
    ensures { result ≡ counted (ports_up ports.now.entries) }
{
    let mut count: u64 = 0;
    for (_, node) in ports.walk() {
        count = count_one(count, node.value().up);
    }
    count
}

/// The count with one more, where it is to be counted.
fn count_one(count: u64, counts: bool) -> u64
    ensures { result ≡ counted (count + (if counts then 1 else 0)) }
{
    if counts {
        count.saturating_add(1)
    } else {
        count
    }
}
