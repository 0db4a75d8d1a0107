//! What the two values of a book stand for. These traits have no methods: only contracts read them.
ghost use Rattle.std.specs.Prelude.{ℕ, List};

/// A value that stands for a journal, the list of the rounds settled so far.
///
/// Where a call is given two values, the meaning of submissions and of rounds is that of the desk's type.
pub trait Settles: Drop {
    /// What the journal rests on. It is fixed when the book is opened.
    type Ground;

    /// What a caller submits.
    type Sub;

    /// What settles submissions.
    type Round;

    // What the journal rests on.
    ghost opening: { Self → Self.Ground };

    // The rounds settled so far, in order.
    ghost done: { Self → List Self.Round };

    // The number of the caller of a submission.
    ghost caller: { Self.Sub → ℕ };

    // How many submissions of that caller came before it.
    ghost sequence: { Self.Sub → ℕ };

    // The submissions that a round settles, in order.
    ghost subs: { Self.Round → List Self.Sub };
}

/// A value that stands for the list of all submissions too.
pub trait Stands: Settles {
    // The submissions so far, in order.
    ghost sent: { Self → List Self.Sub };
}
