// The FIB of an edit, made over shares of the edit's own maps.
ghost use Rattle.std.specs.Prelude.{◌≡◌, OnOk};
ghost use Rattle.state_laws.specs.Fib.{HasFib};
ghost use Rattle.fib_build.specs.Part.{FibPathsMade, HasOthers, KeepsNodes};

use fib_build::build_fib;
use net_types::NoMemory;
use nexthop_resolve::HopResolver;
use rib_lookup::RibView;
use std::alloc::Global;
use switch_state::StateEdit;

/// Makes the edit's FIB that of its routes. The routes are looked up in shares of the edit's maps,
/// since the edit itself is written.
pub fn make_fib(alloc: Global, edit: &mut StateEdit) -> Result<(), NoMemory>
    ensures fib { OnOk result (HasFib edit.new.state) }
    ensures kept { OnOk result (KeepsNodes edit.old.state edit.new.state) }
    ensures paths { OnOk result (FibPathsMade edit.old.state edit.new.state) }
    ensures others { HasOthers edit.old edit.new }
{
    let routes = edit.routes().share()?;
    let intfs = edit.intfs().share()?;
    let subnets = edit.subnets().share()?;
    let view = RibView::of(&routes, &intfs, &subnets);
    let resolver = HopResolver::of(&view);
    build_fib(alloc, &view, &resolver, edit)
}
