// The maker of nodes.
ghost use Rattle.std.specs.Prelude.{◌≡◌, IfOk, IfErr};
ghost use Rattle.node_core.specs.Node.{made};

use crate::node::Node;
use crate::stamp::Stamp;
use std::alloc::{AllocError as NoMemory, AllocFailed, Global};
use std::marker::Model;
use std::sync::Arc;

/// Makes the nodes of one version and the links between them, and takes the memory for both. It has
/// no `Clone` and hands no allocator out: whoever holds one makes things of its version alone.
#[derive(Debug, Drop)]
pub struct Forge {
    alloc: Global,
    version: u64,
}

impl Model for Forge {
    ghost use Rattle.node_core.specs.Node.{ForgeView};

    ghost Value = { ForgeView };

    ghost view = { λ f. record { version = f.version } };
}

/// Why no node was made, with the value that it was to hold.
#[derive(Debug, Drop)]
pub enum NodeFault<T> {
    NoMemory(T),
}

impl Forge {
    /// A forge of the version.
    pub fn at(alloc: Global, version: u64) -> Forge
        ensures { result.version ≡ version }
    {
        Forge { alloc, version }
    }

    /// The version of what it makes.
    pub fn version(&self) -> u64
        ensures { result ≡ self.now.version }
    {
        self.version
    }

    /// The mark of what is made now: the forge's version.
    pub fn stamp(&self) -> Stamp
        ensures { result ≡ self.now.version }
    {
        Stamp::new(self.version)
    }

    /// A link to the value, which can be shared.
    pub fn link<U>(&self, value: U) -> Result<Arc<U>, NoMemory>
    where
        U: Drop,
        ensures { IfOk result (λ link. link.value ≡ value) }
    {
        Ok(Arc::new(self.alloc, value)?)
    }

    /// A node of the forge's version. Its birth is the given one, or else that version.
    pub fn make<T>(&self, born: Option<u64>, value: T) -> Result<Arc<Node<T>>, NodeFault<T>>
        ensures node { IfOk result (λ node. node.value ≡ made self.now.version born value) }
        ensures no_memory { IfErr result (λ fault. fault ≡ NodeFault.NoMemory value) }
    {
        let node = Node::new(value, self.version, born.unwrap_or(self.version));
        match Arc::new(self.alloc, node) {
            Ok(node) => Ok(node),
            Err(AllocFailed { value: node }) => Err(NodeFault::NoMemory(node.into_value())),
        }
    }
}
