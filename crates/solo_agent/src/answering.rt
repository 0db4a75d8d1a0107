// Answers about what is published.
ghost use Rattle.std.specs.Prelude.{◌≡◌, IfOk};
ghost use Rattle.answer_forms.specs.AnswerText.{answer_text, tables_text};
ghost use Rattle.core_laws.specs.Published.{journal_of};
ghost use Rattle.switch_model.specs.Journal.{fold, len, version_of};

use agent_core::{Core, Published};
use chip_core::HwSwitch;
use net_types::{NoMemory, Text};
use observers::StateObserver;
use report_text::{answer_text, answers_say_what_is_found, tables_text};
use state_answers::find;
use std::alloc::Global;
use switch_model::Query;

/// The answer to a question, of what is published.
pub(crate) fn answer(alloc: Global, published: &Published, query: &Query) -> Result<Text, NoMemory>
    ensures { IfOk result (λ text. text ≡ answer_text query.now (fold (journal_of published.now)) (version_of (journal_of published.now)) (len (journal_of published.now))) }
{
    published.shape();
    let state = published.state();
    answers_say_what_is_found();
    let found = find(state, query)?;
    let text = answer_text(alloc, state.version(), published.front(), &found);
    drop(found);
    text
}

/// The answer to a line that asks for the chip's tables. It copies them all, to count their rows.
pub(crate) fn answer_tables<C: HwSwitch, O: StateObserver>(
    alloc: Global,
    core: &Core<C, O>,
) -> Result<Text, NoMemory>
    ensures { IfOk result (λ text. text ≡ tables_text (fold (journal_of core.now.published)) (version_of (journal_of core.now.published)) (len (journal_of core.now.published))) }
{
    core.shape();
    let published = core.published();
    published.shape();
    let tables = core.copy_tables(alloc)?;
    let text = tables_text(
        alloc,
        published.state().version(),
        published.front(),
        &tables,
    );
    drop(tables);
    text
}
