// The FIB of an edit of a state that had its own.
ghost use Rattle.std.specs.Prelude.{◌≡◌, ◌<◌, OnOk};
ghost use Rattle.state_laws.specs.Fib.{HasFib};
ghost use Rattle.fib_build.specs.Part.{FibPathsMade, HasOthers, KeepsNodes};

use fib_moved::moved_keys;
use fib_refresh::refresh_fib;
use net_types::NoMemory;
use nexthop_resolve::HopResolver;
use rib_lookup::RibView;
use std::alloc::Global;
use switch_state::{StateEdit, SwitchState};

/// Makes the edit's FIB that of its routes, where it still is that of the state that was edited. No
/// route is scanned where the edit moved no key.
pub fn renew_fib(alloc: Global, old: &SwitchState, edit: &mut StateEdit) -> Result<(), NoMemory>
    requires base { edit.old.base ≡ old.now }
    requires later { old.now.version < edit.old.state.version }
    requires right { HasFib old.now }
    requires untouched { edit.old.state.fibs ≡ old.now.fibs }
    ensures fib { OnOk result (HasFib edit.new.state) }
    ensures kept { OnOk result (KeepsNodes edit.old.state edit.new.state) }
    ensures paths { OnOk result (FibPathsMade edit.old.state edit.new.state) }
    ensures others { HasOthers edit.old edit.new }
{
    let moved = moved_keys(alloc, old, edit)?;
    let routes = edit.routes().share()?;
    let intfs = edit.intfs().share()?;
    let subnets = edit.subnets().share()?;
    let view = RibView::of(&routes, &intfs, &subnets);
    let resolver = HopResolver::of(&view);
    refresh_fib(alloc, &resolver, edit, moved.as_slice())
}
