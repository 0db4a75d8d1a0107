// Nodes on the paths of touched keys.
ghost use Rattle.std.specs.Prelude.{◌<◌};
ghost use Rattle.node_map.specs.TreeNode.{PathsFit};
ghost use Rattle.switch_model.specs.Touched.{Touched};
ghost use Rattle.switch_state.specs.Paths.{FewMade, PartsFit, PartsMade, PartsOnPaths};

use node_map::NodeMap;
use switch_state::SwitchState;

/// Where changes at a version past the old state's made the new one, on the paths of touched keys,
/// each node of the version is on the path of one of these, and there are at most 193 for each. It
/// does nothing when it runs.
pub fn touched_paths_are_few(old: &SwitchState, new: &SwitchState)
    requires { old.now.version < new.now.version }
    ensures lie { (t : Touched) → PartsMade new.now.version t old.now new.now → PartsOnPaths new.now.version t new.now }
    ensures few { (t : Touched) → PartsOnPaths new.now.version t new.now → FewMade new.now.version t new.now }
{
    old.shape();
    parts_fit(new);
}

// At most 193 nodes of each part are on the path of a key.
fn parts_fit(state: &SwitchState)
    ensures { PartsFit state.now }
{
    paths_fit(state.vlans());
    paths_fit(state.ports());
    paths_fit(state.intfs());
    paths_fit(state.macs());
    paths_fit(state.arps());
    paths_fit(state.ndps());
    paths_fit(state.routes());
}

fn paths_fit<T>(map: &NodeMap<T>)
    ensures { PathsFit map.now.nodes }
{
    map.shape();
}
