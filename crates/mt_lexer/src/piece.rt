ghost use Rattle.std.specs.Prelude.{◌≡◌, ◌≤◌, ℕ, List, false, length, take, map, slice_index, IfSome, IfNone};
ghost use Rattle.std.specs.List.{AllPass};
ghost use Rattle.std.specs.Str.Parse.{digits_value};
ghost use Rattle.mt_lexer.specs.Tokens.{Lexeme, Word, Number, Quoted, Sign, begins_word, is_in_word, is_digit, lower, symbol_bytes};
ghost use Rattle.mt_lexer.specs.FirstToken.{IsWordRun, IsFirstToken, symbol_of};

use crate::{Symbol, TokenKind};

/// The longest word, in bytes.
pub(crate) const WORD_LIMIT: usize = 30;

/// What a text stands between.
pub(crate) const QUOTE: u8 = b'\'';

/// For each byte whether a word may begin with it, `w`, or go on with it, `w` and `d`, which is a digit.
static CLASSES: [u8; 256] = *b"\
    ................................\
    ................dddddddddd......\
    .wwwwwwwwwwwwwwwwwwwwwwwwww....w\
    .wwwwwwwwwwwwwwwwwwwwwwwwww.....\
    ................................\
    ................................\
    ................................\
    ................................";

/// Whether a word may begin with this byte.
pub(crate) fn begins_word(byte: u8) -> bool
    ensures { result ≡ begins_word byte }
{
    CLASSES[byte as usize] == b'w'
}

/// Whether this byte may stand in a word.
pub(crate) fn is_in_word(byte: u8) -> bool
    ensures { result ≡ is_in_word byte }
{
    CLASSES[byte as usize] != b'.'
}

/// Whether this byte is a digit.
pub(crate) fn is_digit(byte: u8) -> bool
    ensures { result ≡ is_digit byte }
{
    CLASSES[byte as usize] == b'd'
}

/// The byte at a place, or 0 past the end.
pub(crate) fn byte_at(rest: &[u8], at: usize) -> u8
    ensures { result ≡ slice_index rest.now at }
{
    rest.get(at).copied().unwrap_or(0)
}

/// How many bytes that may stand in a word these begin with.
fn run_len(rest: &[u8]) -> usize
    ensures { IsWordRun rest.now result }
{
    let mut len = 0;
    while len < rest.len() && is_in_word(rest[len]) {
        len += 1;
    }
    len
}

/// The length of the word that these bytes begin with.
pub(crate) fn word_len(rest: &[u8]) -> Option<usize>
    ensures some { IfSome result (λ n. IsFirstToken rest.now n (Word (map lower (take n rest.now)))) }
    ensures none { IfNone result ((n : ℕ) (name : List ℕ) → IsFirstToken rest.now n (Word name) → ⊥) }
{
    let len = run_len(rest);
    if len > 0 && len <= WORD_LIMIT && begins_word(rest[0]) {
        Some(len)
    } else {
        None
    }
}

/// How many digits these bytes begin with.
fn digits_len(rest: &[u8]) -> usize
    ensures within { result ≤ length rest.now }
    ensures run { AllPass is_digit (take result rest.now) }
    ensures ends { is_digit (slice_index rest.now result) ≡ false }
{
    let mut len = 0;
    while len < rest.len() && is_digit(rest[len]) {
        len += 1;
    }
    len
}

/// The length of the number that these bytes begin with.
pub(crate) fn number_len(rest: &[u8]) -> Option<usize>
    ensures some { IfSome result (λ n. IsFirstToken rest.now n (Number (digits_value 10 (take n rest.now)))) }
    ensures none { IfNone result ((n value : ℕ) → IsFirstToken rest.now n (Number value) → ⊥) }
{
    let len = digits_len(rest);
    if len > 0 && !is_in_word(byte_at(rest, len)) {
        Some(len)
    } else {
        None
    }
}

/// The length of the text in quotes that these bytes begin with, its quotes included.
pub(crate) fn quoted_len(rest: &[u8]) -> Option<usize>
    ensures some { IfSome result (λ n. (text : List ℕ) × IsFirstToken rest.now n (Quoted text)) }
    ensures none { IfNone result ((n : ℕ) (text : List ℕ) → IsFirstToken rest.now n (Quoted text) → ⊥) }
{
    if byte_at(rest, 0) != QUOTE {
        return None;
    }
    let mut at = 1;
    while at < rest.len() {
        if rest[at] != QUOTE {
            at += 1;
        } else if byte_at(rest, at + 1) == QUOTE {
            at += 2;
        } else {
            return Some(at + 1);
        }
    }
    None
}

/// The longest symbol that these bytes begin with.
pub(crate) fn symbol_at(rest: &[u8]) -> Option<Symbol>
    ensures some { IfSome result (λ s. IsFirstToken rest.now (length (symbol_bytes s)) (Sign s)) }
    ensures none { IfNone result ((n : ℕ) (s : Symbol) → IsFirstToken rest.now n (Sign s) → ⊥) }
{
    symbol_of(byte_at(rest, 0), rest)
}

/// The symbol that a byte begins, which is the first of these.
fn symbol_of(first: u8, rest: &[u8]) -> Option<Symbol>
    ensures { result ≡ symbol_of first (slice_index rest.now 1) }
{
    let symbol = match first {
        b'(' => Symbol::Open,
        b')' => Symbol::Close,
        b',' => Symbol::Comma,
        b'.' => Symbol::Dot,
        b'*' => Symbol::Star,
        b'+' => Symbol::Plus,
        b'-' => Symbol::Minus,
        b'=' => Symbol::Equal,
        b';' => Symbol::Semicolon,
        b'<' => match byte_at(rest, 1) {
            b'>' => Symbol::NotEqual,
            b'=' => Symbol::LessEqual,
            _ => Symbol::Less,
        },
        b'>' => match byte_at(rest, 1) {
            b'=' => Symbol::GreaterEqual,
            _ => Symbol::Greater,
        },
        _ => return None,
    };
    Some(symbol)
}

/// How many bytes spell the symbol.
pub(crate) fn symbol_len(symbol: Symbol) -> usize
    ensures { result ≡ length (symbol_bytes symbol) }
{
    match symbol {
        Symbol::NotEqual | Symbol::LessEqual | Symbol::GreaterEqual => 2,
        _ => 1,
    }
}
