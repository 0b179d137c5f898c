ghost use Rattle.std.specs.Prelude.{◌≡◌, ◌↔◌, map, IsTrue};
ghost use Rattle.std.specs.List.{list_all, list_any};
ghost use Rattle.std.specs.Str.{bytes_eq};
ghost use Rattle.mt_lexer.specs.Reserved.{IsNameText, is_reserved_name, reserved};
ghost use Rattle.mt_lexer.specs.Tokens.{Word, Spells, is_in_word, is_upper, lower};
ghost use Rattle.mt_lexer.specs.FirstToken.{passes_as_lower_word};

use crate::piece::{WORD_LIMIT, begins_word, is_in_word};
use mt_value::Str;

/// The words that have a meaning of their own, and so name nothing: those of two letters.
const OF_TWO: [&[u8]; 6] = [b"as", b"by", b"in", b"is", b"on", b"or"];

/// Those of three.
const OF_THREE: [&[u8]; 8] = [
    b"and", b"asc", b"key", b"max", b"min", b"not", b"set", b"sum",
];

/// Those of four.
const OF_FOUR: [&[u8]; 7] = [
    b"date", b"desc", b"from", b"into", b"join", b"like", b"null",
];

/// Those of five.
const OF_FIVE: [&[u8]; 8] = [
    b"begin", b"count", b"group", b"inner", b"limit", b"order", b"purge", b"where",
];

/// Those of six.
const OF_SIX: [&[u8]; 7] = [
    b"commit", b"delete", b"having", b"insert", b"select", b"update", b"values",
];

/// Those of seven.
const OF_SEVEN: [&[u8]; 5] = [b"between", b"integer", b"primary", b"restore", b"varchar"];

/// Those of eight.
const OF_EIGHT: [&[u8]; 2] = [b"distinct", b"rollback"];

/// Whether a word is reserved, in any ASCII case.
pub fn is_reserved(word: &[u8]) -> bool
    ensures { result ≡ is_reserved_name (map lower word.now) }
{
    match word.len() {
        2 => is_among(word, &OF_TWO),
        3 => is_among(word, &OF_THREE),
        4 => is_among(word, &OF_FOUR),
        5 => is_among(word, &OF_FIVE),
        6 => is_among(word, &OF_SIX),
        7 => is_among(word, &OF_SEVEN),
        8 => is_among(word, &OF_EIGHT),
        _ => false,
    }
}

/// Whether a word is one of these words, in any ASCII case.
fn is_among(word: &[u8], words: &[&[u8]]) -> bool
    ensures { result ≡ list_any (λ other. bytes_eq (map lower word.now) (map lower other.now)) words.now }
{
    words.iter().any(|other| is_same_word(word, other))
}

/// Whether two words are one, in any ASCII case.
pub fn is_same_word(word: &[u8], other: &[u8]) -> bool
    ensures { result ≡ bytes_eq (map lower word.now) (map lower other.now) }
{
    word.eq_ignore_ascii_case(other)
}

/// Whether a text is a name as trees keep them: a word in lower case that is not reserved.
pub fn is_name(text: &Str) -> bool
    ensures { IsTrue result ↔ IsNameText text.now }
{
    let bytes = text.as_str().as_bytes();
    if is_reserved(bytes) {
        return false;
    }
    is_lower_word(bytes)
}

/// Whether these bytes are a word in lower case.
#[tactic(auto, using(crate::proofs::LowerWords::lower_word_spells))]
fn is_lower_word(bytes: &[u8]) -> bool
    ensures { IsTrue result ↔ Spells bytes.now (Word bytes.now) }
{
    passes_as_lower_word(bytes)
}

/// Whether they begin as a word does, are not too long, go on as a word does, and have no capitals.
fn passes_as_lower_word(bytes: &[u8]) -> bool
    ensures { result ≡ passes_as_lower_word bytes.now }
{
    let Some((first, rest)) = bytes.split_first() else {
        return false;
    };
    begins_word(*first) && bytes.len() <= WORD_LIMIT && all_in_word(rest) && !has_capitals(bytes)
}

fn all_in_word(bytes: &[u8]) -> bool
    ensures { result ≡ list_all is_in_word bytes.now }
{
    bytes.iter().all(|byte| is_in_word(*byte))
}

/// Whether one of the bytes is a capital letter.
pub fn has_capitals(bytes: &[u8]) -> bool
    ensures { result ≡ list_any is_upper bytes.now }
{
    bytes.iter().any(|byte| byte.is_ascii_uppercase())
}
