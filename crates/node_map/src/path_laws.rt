// Laws of the nodes that several changes make.
ghost use Rattle.std.specs.Prelude.{◌<◌, ◌≤◌, ◌*◌, ◌++◌, ℕ, List, length, count_by};
ghost use Rattle.std.specs.List.{Contains};
ghost use Rattle.node_map.specs.Change.{IsPathMade};
ghost use Rattle.node_map.specs.Follows.{IsMadeBy};
ghost use Rattle.node_map.specs.Paths.{ArePathsMade, LieOnPaths, is_of};

use crate::map::NodeMap;
use node_core::Forge;
use node_key::NodeKey;

/// A map has no new nodes beside itself, whatever the keys. It does nothing when it runs.
pub fn paths_of_none<T>(map: &NodeMap<T>, version: u64)
    ensures { (keys : List ℕ) → ArePathsMade version (Contains keys) map.now.nodes map.now.nodes }
{}

/// What a put or a removal makes is on the path of its key. It does nothing when it runs.
pub fn paths_of_one<T>(old: &NodeMap<T>, new: &NodeMap<T>, forge: &Forge, key: &NodeKey)
    requires { IsPathMade forge.now.version key.now old.now.nodes new.now.nodes }
    ensures { (keys : List ℕ) → Contains keys key.now → ArePathsMade forge.now.version (Contains keys) old.now.nodes new.now.nodes }
{}

/// What changes of some keys and then of others make is on the paths of both. It does nothing when
/// it runs.
pub fn paths_of_more<T>(first: &NodeMap<T>, second: &NodeMap<T>, third: &NodeMap<T>, version: u64)
    ensures { (keys more : List ℕ) → ArePathsMade version (Contains keys) first.now.nodes second.now.nodes → ArePathsMade version (Contains more) second.now.nodes third.now.nodes → ArePathsMade version (Contains (keys ++ more)) first.now.nodes third.now.nodes }
{}

/// Where the old nodes were made before the version, each node of the version is on the path of one
/// of the keys, and there are at most 193 for each key. It does nothing when it runs.
pub fn path_nodes_are_few<T>(old: &NodeMap<T>, new: &NodeMap<T>, before: u64, version: u64)
    requires later { before < version }
    requires made { IsMadeBy before old.now.nodes }
    ensures lie { (keys : List ℕ) → ArePathsMade version (Contains keys) old.now.nodes new.now.nodes → LieOnPaths version (Contains keys) new.now.nodes }
    ensures few { (keys : List ℕ) → LieOnPaths version (Contains keys) new.now.nodes → count_by (is_of version) new.now.nodes ≤ 193 * length keys }
{
    new.shape();
}
