// States and edits against a state of lists, after each of 2,000 random changes.
use crate::ask::{Tally, ask};
use crate::change::change;
use crate::draws::Draws;
use plain_looker::PlainLooker;
use std::alloc::{AllocError, Global};
use std::process::Abort;
use std::test::Fail;
use switch_state::{StateEdit, SwitchState};

// How many edits are made, and how many changes each of them.
const EDITS: u32 = 100;

const CHANGES: u32 = 20;

#[test]
fn questions_are_answered_as_by_lists(rt: HostRuntime) -> Result<(), Fail> {
    let tally = compared(rt.alloc())?;
    tells_alike(&rt, &tally);
    Ok(())
}

fn tells_alike(rt: &impl Abort, tally: &Tally) {
    assert!(rt; tally.asked > 20_000);
    assert!(rt; tally.yes > 2_000);
    assert_eq!(rt; tally.differ, 0);
}

fn compared(alloc: Global) -> Result<Tally, AllocError> {
    let mut tally = Tally::none();
    let mut draws = Draws::of(1);
    let mut plain = PlainLooker::new(alloc);
    let walked = walk(alloc, &mut plain, &mut draws, &mut tally);
    drop(plain);
    walked?;
    Ok(tally)
}

fn walk(
    alloc: Global,
    plain: &mut PlainLooker,
    draws: &mut Draws,
    tally: &mut Tally,
) -> Result<(), AllocError> {
    let mut state = SwitchState::empty();
    for _ in 0..EDITS {
        let next = edited(alloc, &state, plain, draws, tally);
        drop(state);
        state = next?;
    }
    drop(state);
    Ok(())
}

// The state after some changes, which the lists are given too.
fn edited(
    alloc: Global,
    state: &SwitchState,
    plain: &mut PlainLooker,
    draws: &mut Draws,
    tally: &mut Tally,
) -> Result<SwitchState, AllocError> {
    let mut edit = StateEdit::of(alloc, state, state.version().saturating_add(1))?;
    match all_changed(alloc, &mut edit, plain, draws, tally) {
        Ok(()) => {
            let next = edit.finish();
            ask(&next, plain, draws, tally);
            Ok(next)
        }
        Err(fault) => {
            drop(edit);
            Err(fault)
        }
    }
}

fn all_changed(
    alloc: Global,
    edit: &mut StateEdit,
    plain: &mut PlainLooker,
    draws: &mut Draws,
    tally: &mut Tally,
) -> Result<(), AllocError> {
    for _ in 0..CHANGES {
        changed(alloc, edit, plain, draws, tally)?;
    }
    Ok(())
}

fn changed(
    alloc: Global,
    edit: &mut StateEdit,
    plain: &mut PlainLooker,
    draws: &mut Draws,
    tally: &mut Tally,
) -> Result<(), AllocError> {
    change(alloc, edit, plain, draws)?;
    ask(edit, plain, draws, tally);
    Ok(())
}
