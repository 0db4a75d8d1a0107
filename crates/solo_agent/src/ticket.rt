// A line that waits for its reply.
use std::marker::Model;

/// An update that was submitted and has no reply yet: its line, and its place among all that was
/// submitted, counted from 0.
#[derive(Clone, Copy, Debug)]
pub(crate) struct Ticket {
    pub(crate) line: u64,
    pub(crate) position: u64,
}

impl Model for Ticket {
    ghost use Rattle.told_laws.specs.Course as course;

    ghost Value = { course.Ticket };

    ghost view = { λ t. record { line = t.line; position = t.position } };

    ghost inverse = { λ t. record { line = t.line; position = t.position } };
}
