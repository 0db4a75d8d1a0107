// Runs of a shape and a size.
use crate::shape::Shape;
use crate::{table, work};
use std::io;
use std::time::{CpuClock, Duration};

// Nanoseconds an operation.
fn each(time: Duration, count: u64) -> u128 {
    time.as_nanos() / u128::from(count.max(1))
}

// The processor time used from then on.
fn since<R: CpuClock>(rt: &R, start: Duration) -> io::Result<Duration> {
    Ok(rt.thread_cpu_time()?.saturating_sub(start))
}

// Times of a map.
fn measured_map<R: CpuClock + Print + AllocGlobal>(
    rt: &R,
    shape: Shape,
    count: u64,
) -> io::Result<()> {
    let alloc = rt.alloc();
    let start = rt.thread_cpu_time()?;
    let map = work::filled(alloc, shape, count)?;
    let put = each(since(rt, start)?, count);
    let start = rt.thread_cpu_time()?;
    let sum = work::found(&map, shape, count);
    let get = each(since(rt, start)?, count);
    let start = rt.thread_cpu_time()?;
    let (entries, walk_sum) = work::walked(&map);
    let walk = each(since(rt, start)?, count);
    let start = rt.thread_cpu_time()?;
    let changed = work::changed(alloc, &map, shape, count, count)?;
    let change = each(since(rt, start)?, count);
    let start = rt.thread_cpu_time()?;
    let all = work::differing(&map, &changed);
    let delta = each(since(rt, start)?, count);
    let one = work::changed(alloc, &map, shape, count, 1)?;
    let start = rt.thread_cpu_time()?;
    let single = work::differing(&map, &one);
    let delta_of_one = since(rt, start)?.as_nanos();
    let start = rt.thread_cpu_time()?;
    let none = work::emptied(alloc, &map, shape, count)?;
    let remove = each(since(rt, start)?, count);
    println!(rt;
        "map    {shape:?} {count}: put {put} ns, other value {change} ns, get {get} ns, walk step {walk} ns, removal {remove} ns"
    )?;
    println!(rt; "       delta of one change {delta_of_one} ns, of all {delta} ns a change")?;
    let (left, _) = work::walked(&none);
    let is_right = sum == walk_sum && entries == count && all == count && single == 1 && left == 0;
    println!(rt; "       as counted: {is_right}")
}

// Times of the questions beside a key.
fn measured_neighbours<R: CpuClock + Print + AllocGlobal>(
    rt: &R,
    shape: Shape,
    count: u64,
) -> io::Result<()> {
    let map = work::filled(rt.alloc(), shape, count)?;
    let sum = work::found(&map, shape, count);
    let start = rt.thread_cpu_time()?;
    let last_sum = work::last_to(&map, shape, count);
    let last = each(since(rt, start)?, count);
    let start = rt.thread_cpu_time()?;
    let begun_sum = work::begun(&map, shape, count);
    let begun = each(since(rt, start)?, count);
    let start = rt.thread_cpu_time()?;
    let followed = work::followed(&map, shape, count);
    let after = each(since(rt, start)?, count);
    let is_right = last_sum == sum && begun_sum == sum && followed == count.saturating_sub(1);
    println!(rt;
        "       last_to {last} ns, after {after} ns, walk_from and a step {begun} ns, as counted: {is_right}"
    )
}

// Times of std's ordered map.
fn measured_table<R: CpuClock + Print + AllocGlobal>(
    rt: &R,
    shape: Shape,
    count: u64,
) -> io::Result<()> {
    let start = rt.thread_cpu_time()?;
    let mut table = table::filled(rt.alloc(), shape, count)?;
    let put = each(since(rt, start)?, count);
    let start = rt.thread_cpu_time()?;
    let sum = table::found(&table, shape, count);
    let get = each(since(rt, start)?, count);
    let start = rt.thread_cpu_time()?;
    let (entries, walk_sum) = table::walked(&table);
    let walk = each(since(rt, start)?, count);
    let start = rt.thread_cpu_time()?;
    table::emptied(&mut table, shape, count);
    let remove = each(since(rt, start)?, count);
    let is_right = sum == walk_sum && entries == count && table.is_empty();
    println!(rt;
        "BTree  {shape:?} {count}: put {put} ns, get {get} ns, walk step {walk} ns, removal {remove} ns, as counted: {is_right}"
    )
}

/// Prints nanoseconds an operation.
pub fn measured<R: CpuClock + Print + AllocGlobal>(
    rt: &R,
    shape: Shape,
    count: u64,
) -> io::Result<()> {
    measured_map(rt, shape, count)?;
    measured_neighbours(rt, shape, count)?;
    measured_table(rt, shape, count)
}

/// Prints what was counted, and no times.
pub fn counted<R: Print + AllocGlobal>(rt: &R, shape: Shape, count: u64) -> io::Result<()> {
    let alloc = rt.alloc();
    let map = work::filled(alloc, shape, count)?;
    let changed = work::changed(alloc, &map, shape, count, 3)?;
    let none = work::emptied(alloc, &changed, shape, count)?;
    let (entries, sum) = work::walked(&map);
    let (left, _) = work::walked(&none);
    let differing = work::differing(&map, &changed);
    let found = work::found(&map, shape, count);
    let last = work::last_to(&map, shape, count);
    let begun = work::begun(&map, shape, count);
    let followed = work::followed(&map, shape, count);
    println!(rt;
        "{shape:?}: {entries} entries of sum {sum}, found {found}, {differing} differ, {left} left"
    )?;
    println!(rt; "{shape:?}: last {last}, begun {begun}, {followed} followed")
}
