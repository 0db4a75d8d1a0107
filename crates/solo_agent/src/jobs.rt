// What a line's job does.
ghost use Rattle.std.specs.Prelude.{◌≡◌, ◌<◌, OnOk, length};
ghost use Rattle.answer_forms.specs.AnswerText.{answer_text, tables_text};
ghost use Rattle.solo_agent.specs.Views.{Kept};
ghost use Rattle.switch_model.specs.declared.reply.Reply.TheVariants.{Settle};
ghost use Rattle.switch_model.specs.Journal.{pending};
ghost use Rattle.told_laws.specs.Course.{ask, do_job, pump_by, settle_all as all_settled, submit as submitted, told, with_ticket};

use crate::agent::SoloAgent;
use crate::answering::{answer, answer_tables};
use crate::ticket::Ticket;
use chip_core::HwSwitch;
use net_types::NoMemory;
use observers::StateObserver;
use script_text::{Job, Line};
use std::alloc::Global;
use switch_model::{Query, Reply, Update};

impl<C: HwSwitch, O: StateObserver> SoloAgent<C, O> {
    // Does one line.
    pub(crate) fn serve_line(&mut self, alloc: Global, line: &Line) -> Result<(), NoMemory>
        requires caller { line.now.caller ≡ 0 }
        ensures kept { Kept self.old self.new }
        ensures ok { OnOk result (self.new.course ≡ do_job self.old.limit line.now line.now.job self.old.course) }
    {
        match &line.job {
            Job::Submit { queue, update } => self.submit_line(alloc, line, *queue, update),
            Job::Settle => self.settle_line(alloc, line.line),
            Job::Pump => self.pump_line(alloc, line.line),
            Job::Peek => self.ask_line(alloc, line.line, &Query::Version),
            Job::Tables => self.tables_line(alloc, line.line),
            Job::Show(query) => self.ask_line(alloc, line.line, query),
        }
    }

    // Submits an update; its ticket is the last.
    fn take_ticket(&mut self, alloc: Global, line: &Line, update: &Update) -> Result<(), NoMemory>
        requires caller { line.now.caller ≡ 0 }
        requires room { length self.old.course.sent < self.old.limit }
        ensures kept { Kept self.old self.new }
        ensures ok { OnOk result (self.new.course ≡ with_ticket line.now update.now self.old.course) }
    {
        let position = self.desk.submit(alloc, update)?;
        self.tickets.push(Ticket {
            line: line.line,
            position,
        })?;
        Ok(())
    }

    // A line with an update.
    fn submit_line(
        &mut self,
        alloc: Global,
        line: &Line,
        queue: bool,
        update: &Update,
    ) -> Result<(), NoMemory>
        requires caller { line.now.caller ≡ 0 }
        ensures kept { Kept self.old self.new }
        ensures ok { OnOk result (self.new.course ≡ submitted self.old.limit line.now queue update.now self.old.course) }
    {
        if self.desk.sent() < self.desk.limit() {
            self.take_ticket(alloc, line, update)?;
            return self.settle_unless(alloc, queue);
        }
        self.settle_unless(alloc, queue)?;
        self.tell(line.line, Reply::HistoryFull)
    }

    // A line that settles all tickets.
    fn settle_line(&mut self, alloc: Global, line: u64) -> Result<(), NoMemory>
        ensures kept { Kept self.old self.new }
        ensures ok { OnOk result (self.new.course ≡ told line (Settle (length self.old.course.tickets)) (all_settled self.old.course)) }
    {
        let count = self.tickets.len() as u64;
        self.settle_all(alloc)?;
        self.tell(line, Reply::Settle(count))
    }

    // A line that has a round run.
    fn pump_line(&mut self, alloc: Global, line: u64) -> Result<(), NoMemory>
        ensures kept { Kept self.old self.new }
        ensures ok { OnOk result (self.new.course ≡ pump_by line (pending self.old.course.sent self.old.course.journal) self.old.course) }
    {
        let count = self.desk.pump(alloc)?;
        self.replies.push((line, Reply::Pump(count)))?;
        Ok(())
    }

    // A line with a question.
    fn ask_line(&mut self, alloc: Global, line: u64, query: &Query) -> Result<(), NoMemory>
        ensures kept { Kept self.old self.new }
        ensures ok { OnOk result (self.new.course ≡ ask line (answer_text query.now) self.old.course) }
    {
        let published = self.desk.published();
        let front = published.front();
        let text = answer(alloc, published, query)?;
        self.replies.push((line, Reply::Answer { front, text }))?;
        Ok(())
    }

    // A line that asks for the chip's tables.
    fn tables_line(&mut self, alloc: Global, line: u64) -> Result<(), NoMemory>
        ensures kept { Kept self.old self.new }
        ensures ok { OnOk result (self.new.course ≡ ask line tables_text self.old.course) }
    {
        let front = self.desk.published().front();
        let text = answer_tables(alloc, self.desk.core())?;
        self.replies.push((line, Reply::Answer { front, text }))?;
        Ok(())
    }
}
