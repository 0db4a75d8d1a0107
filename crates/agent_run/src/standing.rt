// Where the observers of a run stand.
ghost use Rattle.std.specs.Prelude.{◌≡◌, ◌++◌, IfOk, OnOk, drop, map, take};
ghost use Rattle.agent_run.specs.Standing.{standing_of};

use net_types::NoMemory;
use observers::{Observers, StateObserver};
use report_text::StandingList;
use std::alloc::Global;

/// Where each observer stands, in the order of the observers.
pub(crate) fn standings_of<O: StateObserver>(
    alloc: Global,
    observers: &Observers<O>,
) -> Result<StandingList, NoMemory>
    ensures standings { IfOk result (λ list. list ≡ map standing_of (map O.watch observers.now.list.items)) }
{
    let mut list = StandingList::new(alloc);
    for n in 0..observers.len() {
        put_standing(&mut list, observers, n)?;
    }
    Ok(list)
}

// Puts last where the n-th observer stands, where there is one.
fn put_standing<O: StateObserver>(
    list: &mut StandingList,
    observers: &Observers<O>,
    n: usize,
) -> Result<(), NoMemory>
    ensures put { OnOk result (list.new ≡ list.old ++ take 1 (drop n (map standing_of (map O.watch observers.now.list.items)))) }
{
    match observers.standing(n) {
        Some(standing) => list.push(standing),
        None => Ok(()),
    }
}
