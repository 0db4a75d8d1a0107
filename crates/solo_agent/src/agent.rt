// One caller's agent.
ghost use Rattle.std.specs.Prelude.{◌≡◌, ◌<◌, ◌+◌, ◌^◌, [], IfOk, OnOk, Some, length, map, option_map, IfSome};
ghost use Rattle.std.specs.List.{AllByRecursion};
ghost use Rattle.core_laws.specs.Published.{journal_of};
ghost use Rattle.solo_agent.specs.Views.{Goes, Kept};
ghost use Rattle.switch_model.specs.Journal.{version_of};
ghost use Rattle.told_laws.specs.Course.{IsCourse, lines, phases, settle_all as all_settled, settle_each as each_settled, settle_one as one_settled, started, step, told, unless_queued};

use crate::desk::Desk;
use crate::ticket::Ticket;
use agent_core::Core;
use chip_core::HwSwitch;
use net_types::NoMemory;
use observers::StateObserver;
use script_text::{Line, LineList, PhaseList};
use std::alloc::Global;
use std::marker::Model;
use switch_model::{Reply, ReplyList};

/// A core that serves one caller, of number 0, line by line: what waits to be settled, the lines that wait
/// for their replies, and the replies so far in the order in which they were given, each with the number
/// of its line.
#[derive(Drop)]
pub struct SoloAgent<C: HwSwitch, O: StateObserver> {
    pub(crate) desk: Desk<C, O>,
    pub(crate) tickets: Vec<Ticket>,
    pub(crate) replies: ReplyList,
}

impl<C: HwSwitch, O: StateObserver> Model for SoloAgent<C, O> {
    ghost use Rattle.core_laws.specs.Published.{journal_of};
    ghost use Rattle.solo_agent.specs.Views.{SoloView};
    ghost use Rattle.solo_laws.specs.Waiting.{AreOf, course_of, sent_of};

    ghost Value = { SoloView };

    ghost view = { λ a. record { core = a.desk.core; limit = a.desk.limit; course = course_of (journal_of a.desk.core.published) a.desk.waiting a.tickets.items a.replies } };

    ghost invariant = { λ a. AreOf (sent_of (journal_of a.desk.core.published) a.desk.waiting) a.tickets.items };
}

impl<C: HwSwitch, O: StateObserver> SoloAgent<C, O> {
    /// An agent of a core whose journal is empty, for at most so many updates. The core's version and
    /// the limit together are a number of 64 bits. After a refusal of memory the core is dropped.
    pub fn open(alloc: Global, core: Core<C, O>, limit: u64) -> Result<SoloAgent<C, O>, NoMemory>
        requires rounds { core.published.rounds ≡ [] }
        requires room { version_of (journal_of core.published) + limit < 2 ^ 64 }
        ensures opened { IfOk result (λ a. a ≡ record { core = core; limit = limit; course = started (journal_of core.published).opening }) }
    {
        let desk = Desk::open(alloc, core, limit)?;
        Ok(SoloAgent {
            desk,
            tickets: Vec::new(alloc),
            replies: ReplyList::new(alloc),
        })
    }

    /// What holds of every agent: it stands for a course of caller 0, and the course's journal is the
    /// core's. It does nothing when it runs.
    pub fn shape(&self)
        ensures course { IsCourse self.now.limit 0 self.now.course }
        ensures journal { self.now.course.journal ≡ journal_of self.now.core.published }
    {
        self.desk.shape();
        let _ = &self.tickets;
    }

    /// The core.
    pub fn core(&self) -> &Core<C, O>
        ensures core { result.now ≡ self.now.core }
    {
        self.desk.core()
    }

    /// The replies so far, in the order in which they were given.
    pub fn replies(&self) -> &ReplyList
        ensures replies { result.now ≡ self.now.course.replies }
    {
        &self.replies
    }

    /// The core, and the replies. What waits is dropped.
    pub fn into_parts(self) -> (Core<C, O>, ReplyList)
        ensures core { result.0 ≡ self.core }
        ensures replies { result.1 ≡ self.course.replies }
    {
        let SoloAgent {
            desk,
            tickets,
            replies,
        } = self;
        drop(tickets);
        (desk.into_core(), replies)
    }

    /// Does one line of the caller, or with none the end of a phase, and appends the replies that this
    /// gives. After a refusal of memory some of them may be missing.
    pub fn serve(&mut self, alloc: Global, line: Option<&Line>) -> Result<(), NoMemory>
        requires caller { IfSome line (λ l. l.now.caller ≡ 0) }
        ensures kept { Kept self.old self.new }
        ensures ok { OnOk result (self.new.course ≡ step self.old.limit self.old.course (option_map (λ l. l.now) line.entry)) }
    {
        match line {
            Some(line) => self.serve_line(alloc, line),
            None => self.settle_all(alloc),
        }
    }

    /// Serves the lines of a phase, and its end.
    pub fn serve_phase(&mut self, alloc: Global, phase: &LineList) -> Result<(), NoMemory>
        requires callers { AllByRecursion (λ l. l.caller ≡ 0) phase.now }
        ensures kept { Kept self.old self.new }
        ensures ok { OnOk result (self.new.course ≡ lines self.old.limit self.old.course phase.now) }
    {
        for line in phase.as_slice() {
            self.serve(alloc, Some(line))?;
        }
        self.serve(alloc, None)
    }

    /// Serves phases in turn.
    pub fn serve_phases(&mut self, alloc: Global, all: &PhaseList) -> Result<(), NoMemory>
        requires callers { AllByRecursion (AllByRecursion (λ l. l.caller ≡ 0)) all.now }
        ensures kept { Kept self.old self.new }
        ensures ok { OnOk result (self.new.course ≡ phases self.old.limit self.old.course all.now) }
    {
        for phase in all.as_slice() {
            self.serve_phase(alloc, phase)?;
        }
        Ok(())
    }

    // One reply more.
    pub(crate) fn tell(&mut self, line: u64, reply: Reply) -> Result<(), NoMemory>
        ensures goes { Goes self.old self.new }
        ensures ok { OnOk result (self.new.course ≡ told line reply self.old.course) }
    {
        self.replies.push((line, reply))?;
        Ok(())
    }

    // Settles a ticket, and tells so.
    fn settle_ticket(&mut self, alloc: Global, ticket: Ticket) -> Result<(), NoMemory>
        requires there { ticket.position < length self.old.course.sent }
        ensures goes { Goes self.old self.new }
        ensures ok { OnOk result (self.new.course ≡ one_settled ticket self.old.course) }
    {
        self.desk.settle(alloc, ticket.position)?;
        let reply = self.desk.reply_at(ticket.position);
        self.replies.push((ticket.line, reply))?;
        Ok(())
    }

    // Settles all tickets in their order, and leaves them in the list.
    fn settle_each(&mut self, alloc: Global) -> Result<(), NoMemory>
        ensures goes { Goes self.old self.new }
        ensures ok { OnOk result (self.new.course ≡ each_settled self.old.course.tickets self.old.course) }
    {
        for n in 0..self.tickets.len() {
            let ticket = self.tickets[n];
            self.settle_ticket(alloc, ticket)?;
        }
        Ok(())
    }

    // Settles all tickets in their order.
    pub(crate) fn settle_all(&mut self, alloc: Global) -> Result<(), NoMemory>
        ensures kept { Kept self.old self.new }
        ensures ok { OnOk result (self.new.course ≡ all_settled self.old.course) }
    {
        self.settle_each(alloc)?;
        self.tickets.clear();
        Ok(())
    }

    // Settles all tickets, unless the line is queued.
    pub(crate) fn settle_unless(&mut self, alloc: Global, queue: bool) -> Result<(), NoMemory>
        ensures kept { Kept self.old self.new }
        ensures ok { OnOk result (self.new.course ≡ unless_queued queue self.old.course) }
    {
        if queue {
            return Ok(());
        }
        self.settle_all(alloc)
    }
}
