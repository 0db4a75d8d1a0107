// A node of each birth, stamps and links, and nodes in threads.
use crate::{Forge, Node, NodeFault};
use std::alloc::AllocError;
use std::marker::{Send, Sync};
use std::sync::{Arc, Wait};
use std::test::Fail;
use std::thread;
use std::thread::Threads;

// A forge's node, and the fault as an error that a test can hand on.
fn node(forge: &Forge, born: Option<u64>, value: u8) -> Result<Arc<Node<u8>>, AllocError> {
    match forge.make(born, value) {
        Ok(node) => Ok(node),
        Err(NodeFault::NoMemory(_)) => Err(AllocError),
    }
}

#[test]
fn births(rt: HostRuntime) -> Result<(), Fail> {
    let forge = Forge::at(rt.alloc(), 7);
    assert_eq!(rt; forge.version(), 7);
    assert_eq!(rt; forge.stamp().version(), 7);
    let link = forge.link(b'l')?;
    assert_eq!(rt; *link, b'l');
    let fresh = node(&forge, None, b'a')?;
    assert_eq!(rt; (*fresh.value(), fresh.gen_(), fresh.born()), (b'a', 7, 7));
    let later = node(&forge, Some(3), b'b')?;
    assert_eq!(rt; (*later.value(), later.gen_(), later.born()), (b'b', 7, 3));
    let other = Forge::at(rt.alloc(), u64::MAX);
    let last = node(&other, None, b'c')?;
    assert_eq!(rt; last.born(), u64::MAX);
    Ok(())
}

fn crosses<S: Send + Sync>(_value: &S) {}

fn node_crosses<T: Send + Sync>(node: &Node<T>) {
    crosses(node)
}

fn born_elsewhere<R: Threads + Wait + Sync>(
    rt: &R,
    node: Arc<Node<u8>>,
) -> Result<u64, AllocError> {
    let child = thread::spawn(rt, move || node.born())?;
    Ok(child.join(rt))
}

#[test]
fn a_node_moves_into_a_thread(rt: HostRuntime) -> Result<(), Fail> {
    let forge = Forge::at(rt.alloc(), 7);
    let shared = node(&forge, Some(2), b'a')?;
    node_crosses(&shared);
    let other = Arc::try_clone(&shared)?;
    assert_eq!(rt; born_elsewhere(&rt, other)?, 2);
    assert_eq!(rt; shared.born(), 2);
    Ok(())
}
