//! Measures the FIB of many routes: made from nothing and after one change, and longest matches. With
//! counts of routes as arguments it prints times; with none it runs on a few routes and prints what it
//! counted.
#![tactic(auto)]

mod work;

ghost use Rattle.std.specs.Prelude.{OnOk};
ghost use Rattle.state_laws.specs.Fib.{HasFib};

use crate::work::{Change, entries_of, make_change, matched, with_routes};
use fib_make::make_fib;
use std::time::{CpuClock, Duration};
use std::{env, io};
use switch_state::{StateEdit, SwitchState};

// How many packets are matched.
const PACKETS: u64 = 100_000;

// The processor time used from then on.
fn since<R: CpuClock>(rt: &R, start: Duration) -> io::Result<Duration> {
    Ok(rt.thread_cpu_time()?.saturating_sub(start))
}

fn build<R: CpuClock + AllocGlobal>(rt: &R, edit: &mut StateEdit) -> io::Result<Duration>
    ensures fib { OnOk result (HasFib edit.new.state) }
{
    let start = rt.thread_cpu_time()?;
    make_fib(rt.alloc(), edit)?;
    since(rt, start)
}

fn changed<R: CpuClock + AllocGlobal>(
    rt: &R,
    state: &SwitchState,
    what: Change,
) -> io::Result<Duration>
    requires fib { HasFib state.now }
{
    let version = state.version();
    if version == u64::MAX {
        return Ok(Duration::ZERO);
    }
    let mut edit = StateEdit::of(rt.alloc(), state, version + 1)?;
    let start = rt.thread_cpu_time();
    let done = make_change(rt.alloc(), state, &mut edit, what);
    let end = rt.thread_cpu_time();
    drop(edit);
    done?;
    Ok(end?.saturating_sub(start?))
}

fn counted<R: CpuClock + Print + AllocGlobal>(rt: &R, state: &SwitchState) -> io::Result<()>
    requires fib { HasFib state.now }
{
    let found = matched(state, 20);
    println!(rt;
        "20 routes: {} entries, {found} ips matched",
        entries_of(state)
    )
}

fn told<R: CpuClock + Print + AllocGlobal>(
    rt: &R,
    routes: u64,
    state: &SwitchState,
    build: Duration,
) -> io::Result<()>
    requires fib { HasFib state.now }
{
    let start = rt.thread_cpu_time()?;
    let found = matched(state, PACKETS);
    let packet = since(rt, start)?.as_nanos() / u128::from(PACKETS);
    let build = build.as_millis();
    println!(rt;
        "{routes} routes: built in {build} ms, a longest match {packet} ns, {found} found"
    )?;
    let moved = changed(rt, state, Change::Moved(7))?.as_micros();
    let gone = changed(rt, state, Change::Gone(7))?.as_micros();
    let port = changed(rt, state, Change::Port)?.as_micros();
    println!(rt; "a route moved {moved} us, gone {gone} us, a port {port} us")
}

fn run<R: CpuClock + Print + AllocGlobal>(rt: &R, routes: Option<u64>) -> io::Result<()> {
    let mut edit = with_routes(rt.alloc(), routes.unwrap_or(20))?;
    match build(rt, &mut edit) {
        Ok(build) => {
            let state = edit.finish();
            let done = match routes {
                Some(routes) => told(rt, routes, &state, build),
                None => counted(rt, &state),
            };
            drop(state);
            done
        }
        Err(fault) => {
            drop(edit);
            Err(fault)
        }
    }
}

fn main(rt: HostRuntime) -> io::Result<()> {
    let mut is_measured = false;
    for word in env::args(&rt)?.skip(1) {
        if let Ok(routes) = word.as_str().parse::<u64>() {
            is_measured = true;
            run(&rt, Some(routes))?;
        }
    }
    if !is_measured {
        run(&rt, None)?;
    }
    Ok(())
}
