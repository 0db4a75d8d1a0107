//! Tests of the texts of a report and of answers, and of the first table whose rows differ.
#![tactic(auto)]

#[cfg(test)]
mod answer_tests;
#[cfg(test)]
mod difference_tests;
#[cfg(test)]
mod entries;
#[cfg(test)]
mod replies;
#[cfg(test)]
mod report_tests;
#[cfg(test)]
mod rows;
