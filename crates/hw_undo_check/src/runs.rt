// A commit to a chip in memory.
ghost use Rattle.std.specs.Prelude.{◌≡◌, Err, IfOk, IfSome, OnOk};
ghost use Rattle.std.specs.Result.{result_err};
ghost use Rattle.net_types.specs.Capacity.{over};
ghost use Rattle.chip_core.specs.Changes.{changed_rows};
ghost use Rattle.chip_core.specs.Chip.{view_of};
ghost use Rattle.hw_undo.specs.Counts.{writes_made};
ghost use Rattle.hw_undo_check.specs.Samples.{MayCommit};

use crate::cases::moved_route_case;
use chip_core::{Caps, HwSwitch, RowChanges, RowsFault, SimChip, Table, Tables};
use hw_undo::{UndoLog, commit};
use net_types::NoMemory;
use std::alloc::Global;

/// What a commit answered, and the tables that it left.
#[derive(Debug, Drop)]
pub struct Outcome {
    pub answer: Result<(), Table>,
    pub tables: Tables,
}

/// Commits the changes to a chip with these tables. Tables that don't fit are a fault.
pub fn trial(
    alloc: Global,
    caps: Caps,
    tables: Tables,
    changes: RowChanges,
) -> Result<Outcome, RowsFault>
    requires { MayCommit tables changes }
    ensures first { IfOk result (λ t. result_err t.answer ≡ over (changed_rows changes (view_of tables)) caps) }
    ensures err { IfOk result (λ t. IfSome (result_err t.answer) (λ table. t.tables ≡ tables)) }
{
    let (answer, chip) = written(alloc, caps, tables, changes)?;
    match chip.copy_tables(alloc) {
        Ok(tables) => Ok(Outcome { answer, tables }),
        Err(_) => Err(RowsFault::NoMemory),
    }
}

/// The chip after the commit, with what was answered. Contracts see how many writes it has had.
pub fn written(
    alloc: Global,
    caps: Caps,
    tables: Tables,
    changes: RowChanges,
) -> Result<(Result<(), Table>, SimChip), RowsFault>
    requires { MayCommit tables changes }
    ensures first { IfOk result (λ r. result_err r.0 ≡ over (changed_rows changes (view_of tables)) caps) }
    ensures err { IfOk result (λ r. IfSome (result_err r.0) (λ table. ⟦<SimChip as HwSwitch>⟧.raw r.1 ≡ tables)) }
    ensures made { IfOk result (λ r. OnOk r.0 (⟦<SimChip as HwSwitch>⟧.writes r.1 ≡ writes_made changes)) }
{
    let mut chip = SimChip::from_rows(alloc, caps, tables)?;
    let mut log = UndoLog::new(alloc);
    match log.reserve(changes.writes()) {
        Ok(()) => {
            let answer = commit(&mut chip, changes, &mut log);
            Ok((answer, chip))
        }
        Err(_) => Err(RowsFault::NoMemory),
    }
}

/// A host, its group and a route's way change: five rows, which six writes take.
pub fn six_writes(alloc: Global) -> Result<(Result<(), Table>, SimChip), RowsFault>
    ensures { IfOk result (λ r. OnOk r.0 (⟦<SimChip as HwSwitch>⟧.writes r.1 ≡ 6)) }
{
    let caps = Caps {
        l2: 0,
        host: 2,
        group: 1,
        route: 1,
    };
    match moved_route_case(alloc) {
        Ok(case) => written(alloc, caps, case.tables, case.changes),
        Err(_) => Err(RowsFault::NoMemory),
    }
}
