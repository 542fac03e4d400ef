//! What a reading of requests gives.

/// What was read.
#[derive(Drop)]
pub enum Turn {
    /// A line, which `Input::line` has.
    Line,
    /// A text, and of one that is too long the first `MAX_TEXT + 1` bytes.
    Text(Vec<u8>),
    /// No request was left.
    End,
    /// A byte past one of the limits.
    TooMany,
    /// The end of the input, within a text.
    CutShort,
}
