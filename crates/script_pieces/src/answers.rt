//! What is ahead in a script.

/// What the bytes ahead begin with.
#[derive(Clone, Copy, PartialEq, Eq, Debug)]
pub enum Ahead {
    /// A whole statement of so many bytes, with its `;`.
    Statement(usize),
    /// No whole statement: all the bytes that are left, of which there may be none.
    Rest,
}
