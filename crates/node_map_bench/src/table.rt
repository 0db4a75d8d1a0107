// The same with std's ordered map, which is changed in place.
use crate::shape::Shape;
use node_map::NodeKey;
use std::alloc::{AllocError, Global};
use std::collections::BTreeMap;

pub type Table = BTreeMap<NodeKey, u64>;

pub fn filled(alloc: Global, shape: Shape, count: u64) -> Result<Table, AllocError> {
    let mut table = BTreeMap::new(alloc);
    for step in 0..count {
        let number = shape.number(step, count);
        table.insert(shape.key(number), number)?;
    }
    Ok(table)
}

pub fn found(table: &Table, shape: Shape, count: u64) -> u64 {
    let mut sum = 0u64;
    for step in 0..count {
        if let Some(value) = table.get(&shape.key(shape.number(step, count))) {
            sum = sum.wrapping_add(*value);
        }
    }
    sum
}

pub fn walked(table: &Table) -> (u64, u64) {
    let mut count = 0u64;
    let mut sum = 0u64;
    for (_, value) in table {
        count = count.wrapping_add(1);
        sum = sum.wrapping_add(*value);
    }
    (count, sum)
}

pub fn emptied(table: &mut Table, shape: Shape, count: u64) {
    for step in 0..count {
        let _ = table.remove(&shape.key(shape.number(step, count)));
    }
}
