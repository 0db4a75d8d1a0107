// The readers of the acts on routes.
ghost use Rattle.std.specs.Prelude.{◌≡◌, [], option_map, IfOk};
ghost use Rattle.ip_text.specs.Values.{hop_of};
ghost use Rattle.script_words.specs.Reading.{Gives, each};
ghost use Rattle.script_text.specs.Reading.{route_at, route_set_at, route_del_at, client_at, client_sync_at, via_at, step, items_run};
ghost use Rattle.script_text.specs.declared.routes.Place.TheVariants.{First, Action, InHops};

use ip_text::{read_hop, read_prefix};
use net_types::{Hop, HopList, NoMemory, Prefix};
use script_words::{Cursor, ReadFault, is};
use std::alloc::Global;
use switch_model::{Act, RouteList, Via};

/// What follows `route`.
#[tactic(auto, unfolding(crate::specs::Reading::route_at, script_words::specs::Reading::choose))]
pub fn read_route(alloc: Global, cursor: &mut Cursor) -> Result<Act, ReadFault>
    ensures { Gives (λ act. act) result (route_at cursor.old) }
{
    if cursor.take(b"set") {
        return route_set(alloc, cursor);
    }
    if cursor.take(b"del") {
        return route_del(cursor);
    }
    Err(cursor.bad().into())
}

#[tactic(auto, unfolding(crate::specs::Reading::route_set_at, script_words::specs::Reading::one, script_words::specs::Reading::turned))]
fn route_set(alloc: Global, cursor: &mut Cursor) -> Result<Act, ReadFault>
    ensures { Gives (λ act. act) result (route_set_at cursor.old) }
{
    let vrf = cursor.vrf()?;
    let prefix = cursor.prefix()?;
    let client = cursor.client()?;
    let via = read_via(alloc, cursor)?;
    Ok(Act::RouteSet {
        vrf,
        prefix,
        client,
        via,
    })
}

#[tactic(auto, unfolding(crate::specs::Reading::route_del_at, script_words::specs::Reading::one))]
fn route_del(cursor: &mut Cursor) -> Result<Act, ReadFault>
    ensures { Gives (λ act. act) result (route_del_at cursor.old) }
{
    let vrf = cursor.vrf()?;
    let prefix = cursor.prefix()?;
    let client = cursor.client()?;
    cursor.end()?;
    Ok(Act::RouteDel {
        vrf,
        prefix,
        client,
    })
}

/// What follows `client`.
#[tactic(auto, unfolding(crate::specs::Reading::client_at, script_words::specs::Reading::choose))]
pub fn read_client(alloc: Global, cursor: &mut Cursor) -> Result<Act, ReadFault>
    ensures { Gives (λ act. act) result (client_at cursor.old) }
{
    if cursor.take(b"sync") {
        return client_sync(alloc, cursor);
    }
    Err(cursor.bad().into())
}

#[tactic(auto, unfolding(crate::specs::Reading::client_sync_at, script_words::specs::Reading::one, script_words::specs::Reading::turned))]
fn client_sync(alloc: Global, cursor: &mut Cursor) -> Result<Act, ReadFault>
    ensures { Gives (λ act. act) result (client_sync_at cursor.old) }
{
    let vrf = cursor.vrf()?;
    let client = cursor.client()?;
    let routes = read_items(alloc, cursor)?;
    Ok(Act::ClientSync {
        vrf,
        client,
        routes,
    })
}

/// An action, to the end of the line.
#[tactic(auto, unfolding(crate::specs::Reading::via_at, script_words::specs::Reading::choose, script_words::specs::Reading::turned))]
fn read_via(alloc: Global, cursor: &mut Cursor) -> Result<Via, ReadFault>
    ensures { Gives (λ via. via) result (via_at cursor.old) }
{
    if cursor.take(b"via") {
        let hops = read_hops(alloc, cursor)?;
        return Ok(Via::Hops(hops));
    }
    if cursor.take(b"cpu") {
        cursor.end()?;
        return Ok(Via::ToCpu);
    }
    if cursor.take(b"drop") {
        cursor.end()?;
        return Ok(Via::Discard);
    }
    Err(cursor.bad().into())
}

/// Next hops, to the end of the line.
fn read_hops(alloc: Global, cursor: &mut Cursor) -> Result<HopList, ReadFault>
    ensures { Gives (λ hops. hops) result (each hop_of [] cursor.old) }
{
    let mut hops = HopList::new(alloc);
    while let Some((word, behind)) = cursor.split() {
        let Ok(Hop { ip, intf }) = read_hop(word) else {
            return Err(cursor.bad().into());
        };
        hops.push(Hop { ip, intf })?;
        *cursor = behind;
    }
    Ok(hops)
}

/// Where the items of a sync stand between two words.
#[derive(Drop)]
pub enum Place {
    /// Before the first item.
    First,
    /// Behind a prefix.
    Action(Prefix),
    /// Among the hops of an item, or behind them.
    InHops(Prefix, HopList),
    /// Behind an item that has no hops.
    Behind,
    /// Behind a semicolon.
    Next,
}

/// Where the items stand behind the word: nowhere, if it may not stand here.
fn step(
    alloc: Global,
    place: Place,
    routes: &mut RouteList,
    word: &[u8],
) -> Result<Option<Place>, NoMemory>
    ensures { IfOk result (λ next. step place routes.old word.now ≡ option_map (λ p. (p, routes.new)) next) }
{
    match place {
        Place::First | Place::Next => match read_prefix(word) {
            Ok(prefix) => Ok(Some(Place::Action(prefix))),
            Err(_) => Ok(None),
        },
        Place::Action(prefix) => begin_action(alloc, prefix, routes, word),
        Place::InHops(prefix, hops) => go_on_hops(prefix, hops, routes, word),
        Place::Behind => {
            if is(word, b";") {
                Ok(Some(Place::Next))
            } else {
                Ok(None)
            }
        }
    }
}

/// Behind a prefix.
fn begin_action(
    alloc: Global,
    prefix: Prefix,
    routes: &mut RouteList,
    word: &[u8],
) -> Result<Option<Place>, NoMemory>
    ensures { IfOk result (λ next. step (Action prefix) routes.old word.now ≡ option_map (λ p. (p, routes.new)) next) }
{
    if is(word, b"via") {
        return Ok(Some(Place::InHops(prefix, HopList::new(alloc))));
    }
    if is(word, b"cpu") {
        routes.push((prefix, Via::ToCpu))?;
        return Ok(Some(Place::Behind));
    }
    if is(word, b"drop") {
        routes.push((prefix, Via::Discard))?;
        return Ok(Some(Place::Behind));
    }
    Ok(None)
}

/// Among hops: one more, or a semicolon that ends the item.
fn go_on_hops(
    prefix: Prefix,
    mut hops: HopList,
    routes: &mut RouteList,
    word: &[u8],
) -> Result<Option<Place>, NoMemory>
    ensures { IfOk result (λ next. step (InHops prefix hops) routes.old word.now ≡ option_map (λ p. (p, routes.new)) next) }
{
    if let Ok(Hop { ip, intf }) = read_hop(word) {
        hops.push(Hop { ip, intf })?;
        return Ok(Some(Place::InHops(prefix, hops)));
    }
    if is(word, b";") {
        routes.push((prefix, Via::Hops(hops)))?;
        return Ok(Some(Place::Next));
    }
    Ok(None)
}

/// The items of a sync, to the end of the line.
fn read_items(alloc: Global, cursor: &mut Cursor) -> Result<RouteList, ReadFault>
    ensures { Gives (λ routes. routes) result (items_run First [] cursor.old) }
{
    let mut routes = RouteList::new(alloc);
    let mut place = Place::First;
    while let Some((word, behind)) = cursor.split() {
        let Some(next) = step(alloc, place, &mut routes, word)? else {
            return Err(cursor.bad().into());
        };
        place = next;
        *cursor = behind;
    }
    match place {
        Place::First | Place::Behind => Ok(routes),
        Place::InHops(prefix, hops) => {
            routes.push((prefix, Via::Hops(hops)))?;
            Ok(routes)
        }
        Place::Action(_) | Place::Next => Err(ReadFault::Left(0)),
    }
}
