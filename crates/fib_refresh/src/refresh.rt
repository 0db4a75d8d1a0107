// The FIB after a change of the routes.
ghost use Rattle.std.specs.Prelude.{◌≡◌, Contains, OnOk};
ghost use Rattle.net_types.specs.declared.table.RouteKey.{RouteKey};
ghost use Rattle.route_laws.specs.Moved.{IsMoved};
ghost use Rattle.switch_model.specs.Fib.{fibs};
ghost use Rattle.switch_model.specs.PlainState.{rib};
ghost use Rattle.switch_state.specs.Plain.{fib_entries, plain};
ghost use Rattle.state_laws.specs.Fib.{HasFib};
ghost use Rattle.fib_build.specs.Part.{FibPathsMade, HasOthers, KeepsNodes};
ghost use Rattle.fib_refresh.specs.Refreshed.{AreRefreshed};

use crate::affected::affected_keys;
use crate::keys::RouteKeys;
use fib_build::refresh_entry;
use net_types::{NoMemory, RouteKey};
use rib_lookup::RibView;
use std::alloc::Global;
use switch_model::Resolver;
use switch_state::StateEdit;

/// Makes the FIB of the edit that of its routes, where it was that of the routes of the edit's base
/// and the list has each key that moved since. Nothing is written under a key whose entry doesn't
/// differ, and all other parts stay as they are. After a refusal of memory some entries are made.
pub fn refresh_fib<S: Resolver>(
    alloc: Global,
    resolver: &S,
    edit: &mut StateEdit,
    changed: &[RouteKey],
) -> Result<(), NoMemory>
    requires resolver { S.rib resolver.now ≡ rib (plain edit.old.state) }
    requires before { fib_entries edit.old.state ≡ fibs (rib (plain edit.old.base)) }
    requires listed { (key : RouteKey) → IsMoved (rib (plain edit.old.base)) (rib (plain edit.old.state)) key → Contains changed.now key }
    ensures fib { OnOk result (HasFib edit.new.state) }
    ensures kept { OnOk result (KeepsNodes edit.old.state edit.new.state) }
    ensures paths { OnOk result (FibPathsMade edit.old.state edit.new.state) }
    ensures others { HasOthers edit.old edit.new }
{
    RibView::of(edit.routes(), edit.intfs(), edit.subnets()).shape();
    let keys = affected_keys(alloc, edit.routes(), changed)?;
    refresh_entries(alloc, resolver, edit, &keys)?;
    drop(keys);
    edit.shape();
    Ok(())
}

/// Makes the entries of the keys anew.
fn refresh_entries<S: Resolver>(
    alloc: Global,
    resolver: &S,
    edit: &mut StateEdit,
    keys: &RouteKeys,
) -> Result<(), NoMemory>
    ensures made { OnOk result (AreRefreshed (S.rib resolver.now) keys.now edit.old.state edit.new.state) }
    ensures kept { OnOk result (KeepsNodes edit.old.state edit.new.state) }
    ensures paths { OnOk result (FibPathsMade edit.old.state edit.new.state) }
    ensures others { HasOthers edit.old edit.new }
{
    keys.shape();
    let mut last: Option<RouteKey> = None;
    while let Some(key) = keys.after(&last) {
        refresh_entry(alloc, resolver, edit, &key)?;
        last = Some(key);
    }
    Ok(())
}
