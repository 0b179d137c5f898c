use mt_list::List;

/// A symbol.
#[derive(Clone, Copy, Debug, PartialEq, Eq)]
pub enum Symbol {
    Open,
    Close,
    Comma,
    Dot,
    Star,
    Plus,
    Minus,
    Equal,
    NotEqual,
    Less,
    LessEqual,
    Greater,
    GreaterEqual,
    Semicolon,
}

/// What a token is.
#[derive(Clone, Copy, Debug, PartialEq, Eq)]
pub enum TokenKind {
    /// A letter or `_`, and letters, digits and `_` behind it: at most 30 in all.
    Word,
    /// One or more digits.
    Number,
    /// Any text in single quotes, a quote in it written twice.
    Text,
    Symbol(Symbol),
}

/// A token: what it is, and the bytes of the text that spell it, `from` included and `upto` not.
#[derive(Clone, Copy, Debug, PartialEq, Eq)]
pub struct Token {
    pub kind: TokenKind,
    pub from: usize,
    pub upto: usize,
}

/// Tokens in the order of the text.
pub type Tokens = List<Token>;
