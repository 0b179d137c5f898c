ghost use Rattle.std.specs.Prelude.{◌≡◌, ◌==◌, ◌<◌, ◌++◌, length, map, position, IfOk, IfSome, IfNone};
ghost use Rattle.mt_lexer.specs.Tokens.{IsToken, Word, Sign, lower};
ghost use Rattle.mt_reader.specs.Descent.{is_same};
ghost use Rattle.mt_reader.specs.Pieces.{lexeme_at, lexeme_of, word_of, digits_of, IsPiece, undoubled};

use mt_lexer::{Symbol, Token, TokenKind, is_same_word};
use std::alloc::{AllocError, Global};

/// A token with the bytes that spell it.
#[derive(Clone, Copy)]
pub enum Piece<'t> {
    Word(&'t [u8]),
    /// Digits.
    Number(&'t [u8]),
    /// What stands between the quotes, each quote in it twice.
    Text(&'t [u8]),
    Symbol(Symbol),
}

impl<'t> Piece<'t> {
    /// Whether it is this word, in any ASCII case.
    pub fn is_word(self, word: &[u8]) -> bool
        ensures { result ≡ is_same (lexeme_of self.entry) (Word (map lower word.now)) }
    {
        match self {
            Piece::Word(found) => is_same_word(found, word),
            Piece::Number(_) | Piece::Text(_) | Piece::Symbol(_) => false,
        }
    }

    /// Whether it is this symbol.
    pub fn is_symbol(self, symbol: Symbol) -> bool
        ensures { result ≡ is_same (lexeme_of self.entry) (Sign symbol) }
    {
        match self {
            Piece::Word(_) | Piece::Number(_) | Piece::Text(_) => false,
            Piece::Symbol(found) => found == symbol,
        }
    }

    /// The bytes of a word.
    pub fn word(self) -> Option<&'t [u8]>
        ensures { result ≡ word_of self.entry }
    {
        match self {
            Piece::Word(bytes) => Some(bytes),
            Piece::Number(_) | Piece::Text(_) | Piece::Symbol(_) => None,
        }
    }

    /// The digits of a number.
    pub fn digits(self) -> Option<&'t [u8]>
        ensures { result ≡ digits_of self.entry }
    {
        match self {
            Piece::Word(_) | Piece::Text(_) | Piece::Symbol(_) => None,
            Piece::Number(bytes) => Some(bytes),
        }
    }
}

/// The piece of a token.
pub fn piece_of<'t>(text: &'t str, token: Token) -> Piece<'t>
    requires { IsToken text.now token (lexeme_at text.now token) }
    ensures says { lexeme_of result ≡ lexeme_at text.now token }
    ensures is_piece { IsPiece result }
{
    let bytes = text.as_bytes();
    match token.kind {
        TokenKind::Word => Piece::Word(&bytes[token.from..token.upto]),
        TokenKind::Number => Piece::Number(&bytes[token.from..token.upto]),
        TokenKind::Text => {
            let quoted = &bytes[token.from..token.upto];
            Piece::Text(&quoted[1..quoted.len() - 1])
        }
        TokenKind::Symbol(symbol) => Piece::Symbol(symbol),
    }
}

/// The text that stands between quotes, with each quote once.
pub fn undoubled(alloc: Global, bytes: &[u8]) -> Result<Vec<u8>, AllocError>
    ensures { IfOk result (λ text. text.items ≡ undoubled bytes.now) }
{
    let mut text = Vec::with_capacity(alloc, bytes.len())?;
    let mut rest = bytes;
    while let Some((front, behind)) = split_quote(rest) {
        text.extend_from_slice(front)?;
        rest = behind;
    }
    text.extend_from_slice(rest)?;
    Ok(text)
}

/// What stands up to the first quote, it included, and what stands behind its second.
fn split_quote(bytes: &[u8]) -> Option<(&[u8], &[u8])>
    ensures kept { IfSome result (λ parts. undoubled bytes.now ≡ parts.0.now ++ undoubled parts.1.now) }
    ensures shorter { IfSome result (λ parts. length parts.1.now < length bytes.now) }
    ensures none { IfNone result (undoubled bytes.now ≡ bytes.now) }
{
    let at = quote_at(bytes)?;
    Some((&bytes[..at + 1], &bytes[bytes.len().min(at + 2)..]))
}

/// The place of the first quote.
fn quote_at(bytes: &[u8]) -> Option<usize>
    ensures { result ≡ position (λ b. b == 39) bytes.now }
{
    bytes.iter().position(|byte| *byte == b'\'')
}
