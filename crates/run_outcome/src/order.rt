// Replies in the order of their lines.
ghost use Rattle.std.specs.Prelude.{◌≡◌, IfOk, OnOk};
ghost use Rattle.std.specs.Ordering.{nat_cmp};
ghost use Rattle.std_collections.specs.BTreeMap.{insert_entry};
ghost use Rattle.told_laws.specs.Told.{by_line};

use net_types::NoMemory;
use std::alloc::{AllocError, Global};
use std::collections::BTreeMap;
use switch_model::{Reply, ReplyList};

/// The replies by ascending line.
pub fn in_line_order(alloc: Global, replies: ReplyList) -> Result<ReplyList, NoMemory>
    ensures ordered { IfOk result (λ ordered. ordered ≡ by_line replies) }
{
    let mut left = replies.into_vec();
    let mut tree = BTreeMap::new(alloc);
    while let Some((line, reply)) = left.pop() {
        enter(&mut tree, line, reply)?;
    }
    let mut ordered = ReplyList::new(alloc);
    for reply in tree {
        ordered.push(reply)?;
    }
    Ok(ordered)
}

// Puts a reply under its line.
fn enter(tree: &mut BTreeMap<u64, Reply>, line: u64, reply: Reply) -> Result<(), NoMemory>
    ensures entered { OnOk result (tree.new.entries ≡ insert_entry nat_cmp tree.old.entries line reply) }
{
    match tree.insert(line, reply) {
        Ok(old) => {
            drop(old);
            Ok(())
        }
        Err(fault) => {
            drop(fault);
            Err(AllocError)
        }
    }
}
