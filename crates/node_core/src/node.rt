// A value with the two versions that it came from.
ghost use Rattle.std.specs.Prelude.{◌≡◌};
ghost use Rattle.node_core.specs.Node.{NodeView};

use std::marker::Model;

/// A value that is shared and never changed. It has no `Clone` and no public fields: whoever holds
/// one knows that a forge of its generation made it.
#[derive(Debug, Drop)]
pub struct Node<T> {
    value: T,
    generation: u64,
    born: u64,
}

impl<T> Model for Node<T> {
    ghost use Rattle.node_core.specs.Node.{NodeView};

    ghost Value = { NodeView T };

    ghost view = { λ n. record { value = n.value; generation = n.generation; born = n.born } };
}

impl<T> Node<T> {
    // Only a forge calls this.
    pub(crate) fn new(value: T, generation: u64, born: u64) -> Node<T>
        ensures { result ≡ record { value = value; generation = generation; born = born } }
    {
        Node {
            value,
            generation,
            born,
        }
    }

    pub(crate) fn into_value(self) -> T
        ensures { result ≡ self.value }
    {
        let Node { value, .. } = self;
        value
    }

    pub fn value(&self) -> &T
        ensures { result.now ≡ self.now.value }
    {
        &self.value
    }

    /// The version that made the node.
    pub fn gen_(&self) -> u64
        ensures { result ≡ self.now.generation }
    {
        self.generation
    }

    /// The version at which a value first stood under the key that this node was made for. A change
    /// of the value keeps it; a removal ends it.
    pub fn born(&self) -> u64
        ensures { result ≡ self.now.born }
    {
        self.born
    }
}
