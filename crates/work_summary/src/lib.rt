//! The summary of generated work, with the digest of the lines of its journal.
//!
//! `specs/Summary.antt` says what a summary is, and `specs/Digest.antt` what a digest of lines is.
//! The lines are taken one by one as they are made, so that no text of the whole journal is kept.
#![tactic(auto)]

mod digest;
mod summary;

pub use digest::LineDigest;
pub use summary::{Outcome, RowCounts, VerdictCounts, summary_bytes};
