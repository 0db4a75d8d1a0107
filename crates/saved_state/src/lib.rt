//! The saved text: a state with its version, and a chip's tables with its capacities, as one text of JSON with a
//! digest. It is written exactly and read exactly, and what isn't read is told by the first test that fails.
#![tactic(auto)]

mod acts;
mod body;
mod digest;
mod fault;
mod laws;
mod lists;
mod neighbors;
mod read;
mod save;
mod saved;
mod walk;

pub use fault::SavedFault;
pub use laws::each_text_has_one_answer;
pub use read::read_saved;
pub use save::save_text;
pub use saved::Saved;
