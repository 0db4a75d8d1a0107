// The nearest route to a prefix.
ghost use Rattle.std.specs.Prelude.{◌≡◌, None, option_map};
ghost use Rattle.std.specs.List.{reduce};
ghost use Rattle.switch_model.specs.BestRoute.{connected_first, nearer, routes_to};
ghost use Rattle.switch_model.specs.Looking.{best_route};

use crate::tables::RibView;
use net_types::{Client, Prefix, Vrf, compare_prefixes};
use switch_model::{Best, RibKey};

/// The route of least distance: the clients' routes to a prefix stand by distance.
pub fn nearest<'a>(tables: &'a RibView<'_>, vrf: Vrf, prefix: &Prefix) -> Option<Best<'a>>
    ensures { option_map best_route result ≡ connected_first None (reduce nearer (routes_to tables.now vrf prefix.now)) }
{
    tables.shape();
    let low = RibKey {
        vrf,
        prefix: *prefix,
        client: Client::Interface,
    };
    let Some((key, route)) = tables.route_from(&low) else {
        return None;
    };
    if key.vrf != vrf {
        return None;
    }
    if !compare_prefixes(prefix, &key.prefix).is_eq() {
        return None;
    }
    Some(Best::Route(key.client, route))
}
