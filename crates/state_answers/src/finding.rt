// Questions that are looked up in a state.
ghost use Rattle.std.specs.Prelude.{◌≡◌, IfOk, option_map};
ghost use Rattle.report_text.specs.AnswerFound.{client_of, found_in, found_match};
ghost use Rattle.state_laws.specs.Fib.{HasFib};
ghost use Rattle.switch_model.specs.Fib.{fib};
ghost use Rattle.switch_model.specs.Looking.{best_route};
ghost use Rattle.switch_model.specs.LongestMatch.{longest_match};
ghost use Rattle.switch_model.specs.PlainState.{rib};
ghost use Rattle.switch_state.specs.Plain.{plain};

use net_types::{Client, Ip, NoMemory, Prefix, RouteKey, Vrf};
use report_text::{Found, RouteFound};
use rib_lookup::RibView;
use state_counts::count_state;
use state_keys::fib_key;
use state_scan::record_under;
use switch_model::{Best, BestRoutes, FibEntry, Lookup, Query};
use switch_state::SwitchState;

/// What a state with its FIB has for a question. A port, a longest match and an entry of the FIB are
/// looked up. Only a question for all counts walks over the state.
#[tactic(auto, using(crate::proofs::FindingLaws::counts_with_fib))]
pub fn find(state: &SwitchState, query: &Query) -> Result<Found, NoMemory>
    requires fib { HasFib state.now }
    ensures found { IfOk result (λ found. found ≡ found_in (plain state.now) query.now) }
{
    match query {
        Query::Version => Ok(Found::Version),
        Query::Counts => Ok(Found::Counts(count_state(state))),
        Query::Port(port) => Ok(Found::Port {
            port: *port,
            found: state.port(*port),
        }),
        Query::Route(vrf, ip) => {
            let found = find_route(state, *vrf, *ip)?;
            Ok(Found::Route(found))
        }
    }
}

/// The longest match of an ip, whose it is, and what becomes of packets to it.
#[tactic(auto, using(crate::proofs::FindingLaws::with_entry, crate::proofs::FindingLaws::without_match))]
fn find_route(state: &SwitchState, vrf: Vrf, ip: Ip) -> Result<Option<RouteFound>, NoMemory>
    requires { HasFib state.now }
    ensures { IfOk result (λ found. found ≡ found_match (rib (plain state.now)) vrf (longest_match (rib (plain state.now)) vrf ip)) }
{
    match find_match(state, vrf, ip) {
        Some((prefix, client)) => {
            let entry = find_entry(state, &RouteKey { vrf, prefix })?;
            Ok(Some(RouteFound {
                prefix,
                client,
                entry,
            }))
        }
        None => Ok(None),
    }
}

/// The longest prefix with a best route that contains the ip, and whose that route is.
fn find_match(state: &SwitchState, vrf: Vrf, ip: Ip) -> Option<(Prefix, Client)>
    ensures { result ≡ option_map (λ m. (m.0, client_of m.1)) (longest_match (rib (plain state.now)) vrf ip) }
{
    let routes = RibView::of(state.routes(), state.intfs(), state.subnets());
    match routes.longest(vrf, ip) {
        Some((prefix, best)) => Some((prefix, owner(&best))),
        None => None,
    }
}

/// Whose a best route is.
fn owner(best: &Best<'_>) -> Client
    ensures { result ≡ client_of (best_route best.now) }
{
    match best {
        Best::Connected(_) => Client::Interface,
        Best::Route(client, _) => *client,
    }
}

/// What becomes of packets to a prefix, by one more link to the hops.
fn find_entry(state: &SwitchState, key: &RouteKey) -> Result<Option<FibEntry>, NoMemory>
    requires { HasFib state.now }
    ensures { IfOk result (λ entry. entry ≡ fib (rib (plain state.now)) key.now.vrf key.now.prefix) }
{
    match record_under(state.fibs(), &fib_key(key)) {
        Some(entry) => {
            let copy = entry.copy()?;
            Ok(Some(copy))
        }
        None => Ok(None),
    }
}
