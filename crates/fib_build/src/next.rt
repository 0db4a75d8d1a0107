// The next key that has a best route or an entry.
ghost use Rattle.std.specs.Prelude.{◌≡◌, ◌++◌, None, Some, option_map};
ghost use Rattle.keyed.specs.Least.{lesser};
ghost use Rattle.keyed.specs.Ranges.{head_of, keys_of};
ghost use Rattle.net_types.specs.KeyOrder.{route_cmp};
ghost use Rattle.switch_model.specs.Looking.{key_after};
ghost use Rattle.switch_model.specs.LongestMatch.{best_keys};
ghost use Rattle.switch_state.specs.Plain.{fib_entries};
ghost use Rattle.switch_state.specs.Valid.{IsState};
ghost use Rattle.fib_build.specs.Next.{IsNext};

use net_types::{RouteKey, compare_route_keys};
use node_core::Node;
use node_map::{NodeKey, Walk};
use state_keys::{fib_key, fib_of};
use switch_model::{BestRoutes, FibEntry};
use switch_state::StateEdit;

/// The first key past the last one that has a best route or an entry.
pub fn next_key<R: BestRoutes>(
    routes: &R,
    edit: &StateEdit,
    last: &Option<RouteKey>,
) -> Option<RouteKey>
    ensures next { IsNext last.now (best_keys (R.rib routes.now) ++ keys_of (fib_entries edit.now.state)) result }
    ensures state { IsState edit.now.state }
{
    edit.shape();
    let first = routes.after(*last);
    let second = entry_after(edit, last);
    lesser(first, second)
}

/// The first key with an entry, or the first past a key.
fn entry_after(edit: &StateEdit, last: &Option<RouteKey>) -> Option<RouteKey>
    ensures { result ≡ key_after last.now (keys_of (fib_entries edit.now.state)) }
{
    match last {
        None => first_entry(edit),
        Some(key) => entry_past(edit, key),
    }
}

fn first_entry(edit: &StateEdit) -> Option<RouteKey>
    ensures { result ≡ key_after None (keys_of (fib_entries edit.now.state)) }
{
    match first(edit.fibs().walk()) {
        None => None,
        Some((number, _)) => Some(fib_of(number)),
    }
}

fn entry_past(edit: &StateEdit, key: &RouteKey) -> Option<RouteKey>
    ensures { result ≡ key_after (Some key.now) (keys_of (fib_entries edit.now.state)) }
{
    match edit.fibs().after(&fib_key(key)) {
        None => None,
        Some((number, _)) => Some(fib_of(number)),
    }
}

// The first entry of a walk.
fn first<'a>(walk: Walk<'a, FibEntry>) -> Option<(&'a NodeKey, &'a Node<FibEntry>)>
    ensures { option_map (λ e. (e.0.now, e.1.now)) result ≡ head_of walk.entry }
{
    let mut walk = walk;
    walk.next()
}

/// The lesser of two keys, or the one that is given.
fn lesser(first: Option<RouteKey>, second: Option<RouteKey>) -> Option<RouteKey>
    ensures { result ≡ lesser route_cmp first second }
{
    let Some(a) = first else {
        return second;
    };
    let Some(b) = second else {
        return Some(a);
    };
    if compare_route_keys(&b, &a).is_lt() {
        Some(b)
    } else {
        Some(a)
    }
}
