//! Measures maps of many keys, beside std's `BTreeMap`. With sizes as arguments it prints
//! nanoseconds an operation; with none it runs on a few keys and prints what it counted.
#![tactic(auto)]

mod measure;
mod shape;
mod table;
mod work;

use crate::measure::{counted, measured};
use crate::shape::Shape;
use std::{env, io};

fn main(rt: HostRuntime) -> io::Result<()> {
    let mut is_measured = false;
    for word in env::args(&rt)?.skip(1) {
        if let Ok(count) = word.as_str().parse::<u64>() {
            is_measured = true;
            for shape in [Shape::Routes, Shape::Spread, Shape::Consecutive] {
                measured(&rt, shape, count)?;
            }
        }
    }
    if !is_measured {
        for shape in [Shape::Routes, Shape::Spread, Shape::Consecutive] {
            counted(&rt, shape, 20)?;
        }
    }
    Ok(())
}
