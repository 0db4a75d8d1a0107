// Where a text is at fault.

/// Where a text leaves its form: the length of the longest prefix of the text that begins some
/// text of the form, in bytes.
#[derive(Clone, Copy, Debug, PartialEq, Eq, Hash, thiserror::Error)]
#[error("no text of the form from byte {at} on")]
pub struct TextFault {
    pub at: usize,
}
