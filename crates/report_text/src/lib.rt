//! The texts of a report: how the run was opened, what each line of the script was told, the journal in
//! rounds, the rows of the chip's tables, and where the observers stand; and the answers that lines are
//! told. Each part of the report is written by itself, so that a journal is printed from wherever it is
//! kept.
#![tactic(auto)]

mod answers;
mod head;
mod journal;
mod observers;
mod replies;
mod tables;
mod words;

pub use answers::{Found, RouteFound, answer_text, answers_say_what_is_found, tables_text};
pub use head::{ReportHead, write_head};
pub use journal::{write_entry, write_journal_line, write_round_line};
pub use observers::{StandingList, write_observers};
pub use replies::write_replies;
pub use tables::write_rows;
pub use words::{reason_word, table_word};
