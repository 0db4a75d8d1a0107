// The whole FIB.
ghost use Rattle.std.specs.Prelude.{◌≡◌, OnOk};
ghost use Rattle.switch_model.specs.PlainState.{rib};
ghost use Rattle.switch_state.specs.Plain.{plain};
ghost use Rattle.state_laws.specs.Fib.{HasFib};
ghost use Rattle.fib_build.specs.Part.{FibPathsMade, HasOthers, KeepsNodes};

use crate::entry::refresh_entry;
use crate::next::next_key;
use net_types::{NoMemory, RouteKey};
use std::alloc::Global;
use switch_model::{BestRoutes, Resolver};
use switch_state::StateEdit;

/// Makes the FIB of the edit that of its routes. Nothing is written under a key whose entry doesn't
/// differ: its node stays, and new nodes stand on the paths of the other keys alone. All other parts
/// stay as they are, also after a refusal of memory, which leaves some entries made.
pub fn build_fib<R: BestRoutes, S: Resolver>(
    alloc: Global,
    routes: &R,
    resolver: &S,
    edit: &mut StateEdit,
) -> Result<(), NoMemory>
    requires routes { R.rib routes.now ≡ rib (plain edit.old.state) }
    requires resolver { S.rib resolver.now ≡ rib (plain edit.old.state) }
    ensures fib { OnOk result (HasFib edit.new.state) }
    ensures kept { OnOk result (KeepsNodes edit.old.state edit.new.state) }
    ensures paths { OnOk result (FibPathsMade edit.old.state edit.new.state) }
    ensures others { HasOthers edit.old edit.new }
{
    let mut last: Option<RouteKey> = None;
    while let Some(key) = next_key(routes, edit, &last) {
        refresh_entry(alloc, resolver, edit, &key)?;
        last = Some(key);
    }
    edit.shape();
    Ok(())
}
