use crate::{Symbol, Token, TokenKind, is_name, is_reserved, tokens, tokens_are_determined};
use mt_value::Str;
use std::alloc::{AllocError, Global};
use std::test::Fail;

/// Texts, their tokens or where none stands, and whether the whole is reserved or a name.
const TABLE: &str = "\
SELECT'a'FROM t => Word 0-6 Text 6-9 Word 9-13 Word 14-15 .
 => .
 \t  => .
a<=b<>c>=d => Word 0-1 Symbol(LessEqual) 1-3 Word 3-4 Symbol(NotEqual) 4-6 Word 6-7 Symbol(GreaterEqual) 7-9 Word 9-10 .
'it''s' => Text 0-7 .
'a' 'b' => Text 0-3 Text 4-7 .
'''' => Text 0-4 .
'Zoë' => Text 0-6 .
- 5 => Symbol(Minus) 0-1 Number 2-3 .
a-1 => Word 0-1 Symbol(Minus) 1-2 Number 2-3 .
_a1\t20 => Word 0-3 Number 4-6 .
 (),. => Symbol(Open) 1-2 Symbol(Close) 2-3 Symbol(Comma) 3-4 Symbol(Dot) 4-5 .
*+=; => Symbol(Star) 0-1 Symbol(Plus) 1-2 Symbol(Equal) 2-3 Symbol(Semicolon) 3-4 .
< > => Symbol(Less) 0-1 Symbol(Greater) 2-3 .
'a => no token at byte 0
x = 'a'' => no token at byte 4
5a => no token at byte 0
a 12_ => no token at byte 2
abcdefghijklmnopqrstuvwxyz_1234 => no token at byte 0
é => no token at byte 0
a !b => no token at byte 2
\"a\" => no token at byte 0
abcdefghijklmnopqrstuvwxyz_123 => Word 0-30 .name
_1 => Word 0-2 .name
A => Word 0-1 .
create => Word 0-6 .name
selects => Word 0-7 .name
wHERE => Word 0-5 .reserved
by => Word 0-2 .reserved
and => Word 0-3 .reserved
Null => Word 0-4 .reserved
INSERT => Word 0-6 .reserved
between => Word 0-7 .reserved
rollback => Word 0-8 .reserved";

/// What is known of a text.
fn shown(alloc: Global, text: &str) -> Result<String, AllocError> {
    let mut out = String::new(alloc);
    match tokens(alloc, text) {
        Ok(found) => {
            for token in found.as_slice() {
                write!(out, "{:?} {}-{} ", token.kind, token.from, token.upto)?;
            }
            out.push_str(".")?;
        }
        Err(fault) => write!(out, "{fault}")?,
    }
    if is_reserved(text.as_bytes()) {
        out.push_str("reserved")?;
    }
    if is_name(&Str::from_str(alloc, text)?) {
        out.push_str("name")?;
    }
    Ok(out)
}

#[test]
fn reads_tokens(rt: HostRuntime) -> Result<(), Fail> {
    tokens_are_determined();
    for line in TABLE.lines() {
        let (text, want) = line.split_once(" => ").unwrap_or((line, ""));
        let got = shown(rt.alloc(), text)?;
        assert_eq!(rt; got.as_str(), want, "of {text}");
    }
    Ok(())
}

#[test]
fn reads_a_token_at_each_byte(rt: HostRuntime) -> Result<(), Fail> {
    let mut text = String::new(rt.alloc());
    for _ in 0..65_535 {
        text.push_str("+")?;
    }
    let found = tokens(rt.alloc(), text.as_str())?;
    let last = Token {
        kind: TokenKind::Symbol(Symbol::Plus),
        from: 65_534,
        upto: 65_535,
    };
    assert!(rt; found.len() == 65_535 && found.as_slice().last() == Some(&last));
    Ok(())
}
