// The agent.
ghost use Rattle.std.specs.Prelude.{◌≡◌, ◌⊎◌, ◌+◌, ◌<◌, ◌≤◌, ◌^◌, ◌++◌, [], true, All, IfErr, IfNone, IfOk, IfSome, OnErr, length, map, vec_len};
ghost use Rattle.std.specs.List.{AllByRecursion};
ghost use Rattle.agent_shared.specs.Refusals.{IsRefused};
ghost use Rattle.agent_shared.specs.Views.{AreTablesOf, IsReadOf, ground_of, sure_of};
ghost use Rattle.chip_core.specs.Chip.{view_of};
ghost use Rattle.core_laws.specs.Audience.{IsLatest, IsStanding};
ghost use Rattle.core_laws.specs.Published.{IsPublished, journal_of};
ghost use Rattle.shared_laws.specs.Callers.{AtRest, Grew};
ghost use Rattle.shared_laws.specs.Calls.{IsAnswer, Pumped, RoundsAdded, Submitted};
ghost use Rattle.shared_laws.specs.Closing.{Closes};
ghost use Rattle.shared_laws.specs.Ground.{journal_at};
ghost use Rattle.switch_model.specs.Journal.{fold, len, strip};
ghost use Rattle.switch_model.specs.Rows.{rows};
ghost use Rattle.turn_book.specs.Closing.{HasEachCaller};
ghost use Rattle.turn_book.specs.Passes.{IsPassOf, IsSameCaller, new_passes};

use crate::desk::{Desk, SubmitFault};
use crate::passes::{Pass, passes_of, seats_of};
use crate::seats;
use crate::seats::Book;
use crate::side::Side;
use agent_core::{Core, Pending, Published, Snapshot};
use chip_core::HwSwitch;
use io_edge::Gate;
use net_types::{NoMemory, Shared, Tables};
use observers::{Observers, StateObserver};
use std::alloc::Global;
use std::marker::Model;
use std::sync::Wait;
use switch_model::{Update, Verdict};
use turn_book::TurnBook;

/// An agent that its callers share, each with a pass of its own. Contracts see which agent it is, how many callers it
/// has, and what its journal rests on.
///
/// A round goes so. The chip side is taken. The desk is taken, the run of what waits is loaded, and the desk is put back.
/// The gate is called, and the core settles the run, while others submit and read. The desk is taken again: what was
/// settled leaves the queue, what is published after it comes in, and the round is counted. Then the desk is put back,
/// and after it the chip side.
#[derive(Drop)]
pub struct Agent<'g, C: HwSwitch + Send, G: Gate + Sync, O: StateObserver + Send> {
    book: Book<C, O>,
    gate: &'g G,
}

impl<'g, C: HwSwitch + Send, G: Gate + Sync, O: StateObserver + Send> Model for Agent<'g, C, G, O> {
    ghost use Rattle.std.specs.Prelude.{◌<◌};
    ghost use Rattle.shared_laws.specs.Ground.{GroundView};
    ghost use Rattle.turn_book.specs.Passes.{Book};

    ghost Value = { Book GroundView };

    ghost view = { λ a. a.book };

    ghost invariant = { λ a. 0 < a.book.callers };
}

/// An update that was submitted: its place among all submissions.
#[derive(Clone, Copy, Debug, PartialEq, Eq)]
pub struct Ticket {
    pub position: u64,
}

/// How a ticket was settled: the verdict on its update, the version after its round, and how many entries the caller has
/// seen of the journal.
#[derive(Clone, Copy, Debug, PartialEq, Eq)]
pub struct Settled {
    pub position: u64,
    pub verdict: Verdict,
    pub version: u64,
    pub front: u64,
}

/// What an agent leaves: its chip, what was published last, the updates that wait, and the observers.
#[derive(Drop)]
pub struct Closed<C: HwSwitch, O: StateObserver> {
    pub chip: C,
    pub published: Published,
    pub pending: Pending,
    pub observers: Observers<O>,
}

impl<'g, C: HwSwitch + Send, G: Gate + Sync, O: StateObserver + Send> Agent<'g, C, G, O> {
    /// An agent round a core that has settled nothing, and a pass for each of its callers, in the order of their
    /// numbers. There will be as many submissions as the limit allows, and no more. After a refusal of memory the core
    /// is dropped.
    pub fn open(
        alloc: Global,
        core: Core<C, O>,
        gate: &'g G,
        callers: u32,
        limit: u64,
    ) -> Result<(Agent<'g, C, G, O>, Vec<Pass<C, O>>), NoMemory>
        requires callers { 1 ≤ callers }
        requires new { core.published.rounds ≡ [] }
        requires room { core.published.base.version + limit < 2 ^ 64 }
        ensures basis { IfOk result (λ t. t.0.opening ≡ ground_of core.published limit (sure_of core.audience.watches)) }
        ensures callers { IfOk result (λ t. t.0.callers ≡ callers) }
        ensures passes { IfOk result (λ t. t.1.items ≡ new_passes t.0 0 callers) }
    {
        let desk = Desk::of(alloc, &core, limit)?;
        desk.shape();
        let side = Side::of(alloc, core, limit)?;
        let (book, seats) = TurnBook::open(alloc, desk, side, callers)?;
        let passes = passes_of(alloc, &book, seats, callers)?;
        Ok((Agent { book, gate }, passes))
    }

    /// Submits an update as the caller's next one. Its ticket is its place among all submissions. The history is full
    /// exactly where there are as many submissions as the limit allows. A refused call submits nothing, and hands the
    /// update back.
    pub fn submit<R: Wait>(
        &self,
        rt: &R,
        pass: &mut Pass<C, O>,
        update: Shared<Update>,
    ) -> Result<Ticket, SubmitFault>
        requires book { IsPassOf self.now pass.old }
        ensures book { IsPassOf self.now pass.new }
        ensures caller { IsSameCaller pass.old pass.new }
        ensures was { AtRest self.now.opening pass.old }
        ensures rest { AtRest self.now.opening pass.new }
        ensures grew { Grew pass.old pass.new }
        ensures tries { pass.new.tries ≡ pass.old.tries }
        ensures ok { IfOk result (λ t. Submitted pass.old pass.new update t.position) }
        ensures refused { IfErr result (IsRefused update self.now.opening.limit pass.new.seen) }
        ensures err { OnErr result ((pass.new.mine ≡ pass.old.mine) × (pass.new.rounds ≡ pass.old.rounds)) }
    {
        let position = seats::submit(rt, &self.book, &mut pass.seat, update)?;
        Ok(Ticket { position })
    }

    /// Settles a ticket of what the pass has seen. It runs rounds while the ticket's position isn't settled, and none
    /// where it is. The front is that of the journal as the caller saw it last. After a refusal of memory the rounds
    /// that were counted stand, and the position isn't settled yet.
    pub fn settle<R: Wait>(
        &self,
        rt: &R,
        alloc: Global,
        pass: &mut Pass<C, O>,
        ticket: &Ticket,
    ) -> Result<Settled, NoMemory>
        requires book { IsPassOf self.now pass.old }
        requires ticket { ticket.now.position < length pass.old.seen }
        ensures book { IsPassOf self.now pass.new }
        ensures caller { IsSameCaller pass.old pass.new }
        ensures was { AtRest self.now.opening pass.old }
        ensures rest { AtRest self.now.opening pass.new }
        ensures grew { Grew pass.old pass.new }
        ensures mine { pass.new.mine ≡ pass.old.mine }
        ensures tries { pass.new.tries ≡ pass.old.tries }
        ensures rounds { RoundsAdded self.now.opening pass.old pass.new ticket.now.position }
        ensures position { IfOk result (λ s. s.position ≡ ticket.now.position) }
        ensures ok { IfOk result (λ s. IsAnswer pass.old.seen (journal_at self.now.opening pass.new.jseen) ticket.now.position s.verdict s.version s.front) }
        ensures unsettled { OnErr result (len (journal_at self.now.opening pass.new.jseen) ≤ ticket.now.position) }
    {
        let position = ticket.position;
        let (verdict, version, front) = seats::settle(
            rt,
            alloc,
            &self.book,
            self.gate,
            &mut pass.seat,
            position,
        )?;
        Ok(Settled {
            position,
            verdict,
            version,
            front,
        })
    }

    /// One round, and how many updates it settled: none exactly where nothing was waiting when the call held the desk.
    /// Memory is refused only where something was.
    pub fn pump<R: Wait>(
        &self,
        rt: &R,
        alloc: Global,
        pass: &mut Pass<C, O>,
    ) -> Result<u32, NoMemory>
        requires book { IsPassOf self.now pass.old }
        ensures book { IsPassOf self.now pass.new }
        ensures caller { IsSameCaller pass.old pass.new }
        ensures was { AtRest self.now.opening pass.old }
        ensures rest { AtRest self.now.opening pass.new }
        ensures grew { Grew pass.old pass.new }
        ensures mine { pass.new.mine ≡ pass.old.mine }
        ensures takes { pass.old.takes < pass.new.takes }
        ensures tries { pass.new.tries ≡ pass.old.tries }
        ensures ok { IfOk result (Pumped self.now.opening pass.old pass.new) }
        ensures err { OnErr result (pass.new.rounds ≡ pass.old.rounds) }
        ensures waits { OnErr result (len (journal_at self.now.opening pass.new.jseen) < length pass.new.seen) }
    {
        let settled = seats::pump(rt, alloc, &self.book, self.gate, &mut pass.seat)?;
        Ok(settled)
    }

    /// What is published: the journal and its state, at a moment of this call at which the desk was held.
    pub fn read<R: Wait>(&self, rt: &R, pass: &mut Pass<C, O>) -> Result<Snapshot, NoMemory>
        requires book { IsPassOf self.now pass.old }
        ensures book { IsPassOf self.now pass.new }
        ensures caller { IsSameCaller pass.old pass.new }
        ensures was { AtRest self.now.opening pass.old }
        ensures rest { AtRest self.now.opening pass.new }
        ensures grew { Grew pass.old pass.new }
        ensures mine { (pass.new.mine ≡ pass.old.mine) × (pass.new.rounds ≡ pass.old.rounds) }
        ensures takes { pass.old.takes < pass.new.takes }
        ensures tries { pass.new.tries ≡ pass.old.tries }
        ensures ok { IfOk result (IsReadOf self.now.opening pass.new.jseen) }
    {
        let snapshot = seats::read(rt, &self.book, &mut pass.seat)?;
        Ok(snapshot)
    }

    /// What is published, without waiting: nothing where the desk was with another caller. A caller that is alone
    /// always finds it.
    pub fn try_read(&self, pass: &mut Pass<C, O>) -> Result<Option<Snapshot>, NoMemory>
        requires book { IsPassOf self.now pass.old }
        ensures book { IsPassOf self.now pass.new }
        ensures caller { IsSameCaller pass.old pass.new }
        ensures was { AtRest self.now.opening pass.old }
        ensures rest { AtRest self.now.opening pass.new }
        ensures grew { Grew pass.old pass.new }
        ensures mine { (pass.new.mine ≡ pass.old.mine) × (pass.new.rounds ≡ pass.old.rounds) }
        ensures tries { pass.new.tries ≡ pass.old.tries + 1 }
        ensures found { IfOk result (λ o. IfSome o (λ s. IsReadOf self.now.opening pass.new.jseen s × (pass.old.takes < pass.new.takes))) }
        ensures away { IfOk result (λ o. IfNone o ((1 < self.now.callers) × (pass.old.misses < pass.new.misses) × (pass.new.takes ≡ pass.old.takes))) }
    {
        let found = seats::try_read(&self.book, &mut pass.seat)?;
        Ok(found)
    }

    /// What is published and the chip's tables, both of one moment.
    pub fn tables<R: Wait>(
        &self,
        rt: &R,
        alloc: Global,
        pass: &mut Pass<C, O>,
    ) -> Result<(Snapshot, Tables), NoMemory>
        requires book { IsPassOf self.now pass.old }
        ensures book { IsPassOf self.now pass.new }
        ensures caller { IsSameCaller pass.old pass.new }
        ensures was { AtRest self.now.opening pass.old }
        ensures rest { AtRest self.now.opening pass.new }
        ensures grew { Grew pass.old pass.new }
        ensures mine { (pass.new.mine ≡ pass.old.mine) × (pass.new.rounds ≡ pass.old.rounds) }
        ensures takes { pass.old.takes < pass.new.takes }
        ensures tries { pass.new.tries ≡ pass.old.tries }
        ensures ok { IfOk result (λ t. IsReadOf self.now.opening pass.new.jseen t.0 × AreTablesOf self.now.opening pass.new.jseen t.1) }
    {
        let (snapshot, tables) = seats::tables(rt, alloc, &self.book, &mut pass.seat)?;
        Ok((snapshot, tables))
    }

    /// Ends the agent. The passes are those of all its callers, in any order. It takes no memory.
    pub fn close(self, passes: Vec<Pass<C, O>>) -> Closed<C, O>
        requires book { All (λ p. IsPassOf self p) passes.items }
        requires all { HasEachCaller self passes.items }
        requires count { vec_len passes ≡ self.callers }
        ensures lists { Closes self.entry passes.items (strip (journal_of result.published) ++ result.pending) (journal_of result.published) }
        ensures published { IsPublished result.published }
        ensures chip { view_of (C.raw result.chip) ≡ rows (fold (journal_of result.published)) }
        ensures caps { C.caps result.chip ≡ self.entry.opening.opening.caps }
        ensures sure { sure_of (map O.watch result.observers.list.items) ≡ self.entry.opening.sure }
        ensures standing { AllByRecursion (IsStanding (journal_of result.published)) (map O.watch result.observers.list.items) }
        ensures latest { AllByRecursion (λ w. (w.sure ≡ true) ⊎ (w.refusals ≡ 0) → IsLatest (journal_of result.published) w) (map O.watch result.observers.list.items) }
    {
        let Agent { book, gate: _ } = self;
        let seats = seats_of(passes);
        let (desk, side) = book.close(seats);
        let pending = desk.into_pending();
        let core = side.into_core();
        core.published().shape();
        let (chip, published, observers) = core.into_parts();
        Closed {
            chip,
            published,
            pending,
            observers,
        }
    }
}
