use crate::Kind;
use base_core::{Name, Value};

/// What a token holds beside its kind.
#[derive(Drop)]
pub enum Content {
    Nothing,
    /// The bytes of a word, or of a quoted name without its quotes.
    Name(Name),
    /// The value of the digits, or the greatest value of the type for any above it.
    Number(u64),
    /// A text or bytes.
    Literal(Value),
}

/// A token of a line, with the place of its first byte, from 0.
#[derive(Drop)]
pub struct Token {
    pub kind: Kind,
    pub content: Content,
    pub at: usize,
}
