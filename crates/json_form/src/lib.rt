//! Values of JSON in fixed forms: numbers in a range, arrays of so many items, lists in an order, and objects
//! with just these members. A form says how each value of a type is written, and what reads it; that reading and
//! writing fit is proved once for each way to put forms together.
#![tactic(auto)]

mod arrays;
mod lists;
mod members;

pub use arrays::{five, four, number, pair, single, three};
pub use lists::{RowReader, RowWriter, read_rows, write_rows};
pub use members::{is_end, named_number, named_rows, next_named};
