ghost use Rattle.std.specs.Prelude.{◌≡◌, ◌≤◌, ◌<◌, ℕ, List, false, length, slice_index, IfOk, IfSome, IfNone};
ghost use Rattle.mt_lexer.specs.declared.token.Token.{Token};
ghost use Rattle.mt_lexer.specs.FirstToken.{IsFirstToken};
ghost use Rattle.mt_lexer.specs.Tokens.{Lexeme, IsOfKind, IsToken, Says, HasNoTokenAt, is_blank};

use crate::piece::{
    QUOTE, begins_word, byte_at, is_digit, number_len, quoted_len, symbol_at, symbol_len, word_len,
};
use crate::{Token, TokenKind, Tokens};
use std::alloc::{AllocError, Global};
use thiserror::Error;

/// Why a text has no tokens.
#[derive(Clone, Copy, Debug, PartialEq, Eq, Error)]
pub enum LexFault {
    /// From the byte at this place on no token stands.
    #[error("no token at byte {at}")]
    Bad { at: usize },
    #[error("out of memory")]
    Memory,
}

impl From<AllocError> for LexFault {
    ghost use Rattle.std.specs.Prelude.{◌≡◌};
    ghost use Rattle.mt_lexer.specs.declared.scan.LexFault.TheVariants as fault;

    ghost from_gives = { λ _ r. r ≡ fault.Memory };

    fn from(_: AllocError) -> Self {
        LexFault::Memory
    }
}

/// The tokens of a text, in order. `Bad` exactly where there is a place, behind the tokens before it
/// and not blank, at which none stands; `Memory` is want of memory.
pub fn tokens(alloc: Global, text: &str) -> Result<Tokens, LexFault>
    ensures ok { IfOk result (λ found. (lexemes : List Lexeme) × Says text.now found lexemes) }
    ensures bad { (at : ℕ) → result ≡ Err (LexFault.Bad at) → HasNoTokenAt text.now at }
{
    let bytes = text.as_bytes();
    // Few texts have more tokens than half their bytes, so the list seldom moves as it grows.
    let mut found = Tokens::from_vec(Vec::with_capacity(alloc, bytes.len() / 2)?);
    let mut at = 0;
    while at < bytes.len() {
        if let Some(token) = token_at(bytes, at) {
            found.push(token)?;
            at = token.upto;
        } else if is_blank(bytes[at]) {
            at += 1;
        } else {
            return Err(LexFault::Bad { at });
        }
    }
    Ok(found)
}

/// Whether the byte is a space or a tab.
fn is_blank(byte: u8) -> bool
    ensures { result ≡ is_blank byte }
{
    byte == b' ' || byte == b'\t'
}

/// The token that stands at a place.
fn token_at(text: &[u8], at: usize) -> Option<Token>
    requires { at ≤ length text.now }
    ensures place { IfSome result (λ t. (t.from ≡ at) × (t.from < t.upto) × (t.upto ≤ length text.now)) }
    ensures token { IfSome result (λ t. (lexeme : Lexeme) × IsToken text.now t lexeme) }
    ensures none { IfNone result ((t : Token) (lexeme : Lexeme) → t.from ≡ at → IsToken text.now t lexeme → ⊥) }
{
    let Some((kind, len)) = kind_at(&text[at..]) else {
        return None;
    };
    Some(Token {
        kind,
        from: at,
        upto: at + len,
    })
}

/// The kind of token that these bytes begin with, and how many it takes. The first byte tells which.
fn kind_at(rest: &[u8]) -> Option<(TokenKind, usize)>
    ensures some { IfSome result (λ found. (lexeme : Lexeme) × IsOfKind found.0 lexeme × IsFirstToken rest.now found.1 lexeme) }
    ensures none { IfNone result ((n : ℕ) (lexeme : Lexeme) → IsFirstToken rest.now n lexeme → ⊥) }
{
    let first = byte_at(rest, 0);
    if begins_word(first) {
        let len = word_len(rest)?;
        return Some((TokenKind::Word, len));
    }
    if is_digit(first) {
        let len = number_len(rest)?;
        return Some((TokenKind::Number, len));
    }
    if first == QUOTE {
        let len = quoted_len(rest)?;
        return Some((TokenKind::Text, len));
    }
    let symbol = symbol_at(rest)?;
    Some((TokenKind::Symbol(symbol), symbol_len(symbol)))
}
