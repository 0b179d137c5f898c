use crate::{LiteralForm, NameForm, ReadFault, Reader, bracketed, integer_of, optional, separated};
use mt_lexer::{Symbol, tokens};
use mt_tree::Literal;
use std::alloc::{AllocError, Global};
use std::test::Fail;

/// Literals, perhaps in brackets, behind names and perhaps an alias, in few words.
fn show(out: &mut String, alloc: Global, reader: &mut Reader<'_>) -> Result<(), ReadFault> {
    let names = separated::<NameForm>(alloc, reader)?;
    let alias = optional::<NameForm>(alloc, reader, b"as")?;
    let in_brackets = reader.is_at_symbol(Symbol::Open);
    let literals = if in_brackets {
        bracketed::<LiteralForm>(alloc, reader)?
    } else {
        separated::<LiteralForm>(alloc, reader)?
    };
    reader.end()?;
    let (Some(names), Some(alias), Some(literals)) = (names, alias, literals) else {
        out.push_str("outside")?;
        return Ok(());
    };
    for name in names.as_slice() {
        out.push_str(name.as_str())?;
        out.push_str(" ")?;
    }
    if let Some(alias) = alias {
        write!(out, "as {} ", alias.as_str())?;
    }
    show_literals(out, literals.as_slice())?;
    Ok(())
}

fn show_literals(out: &mut String, literals: &[Literal]) -> Result<(), AllocError> {
    for literal in literals {
        match literal {
            Literal::Null => out.push_str("NULL ")?,
            Literal::Int(number) => write!(out, "{number} ")?,
            Literal::Text(text) => {
                out.push_str("'")?;
                out.push_str(text.as_str())?;
                out.push_str("' ")?;
            }
        }
    }
    Ok(())
}

/// What a text reads as.
fn reading(alloc: Global, text: &str) -> Result<String, Fail> {
    let found = tokens(alloc, text)?;
    let mut reader = Reader::new(text, found.as_slice());
    let mut out = String::new(alloc);
    match show(&mut out, alloc, &mut reader) {
        Ok(()) => Ok(out),
        Err(ReadFault::Unread) => Ok(String::from_str(alloc, "unread")?),
        Err(ReadFault::Memory) => Err(AllocError)?,
    }
}

#[test]
fn reads_names_and_literals(rt: HostRuntime) -> Result<(), Fail> {
    let table = [
        ("A 1", "a 1 "),
        (
            "abcdefghijklmnopqrstuvwxyz_123 1",
            "abcdefghijklmnopqrstuvwxyz_123 1 ",
        ),
        ("a,b NULL, - 2,'it''s';", "a b NULL -2 'it's' "),
        ("a 9223372036854775808, 1", "outside"),
        ("a -9223372036854775808", "a -9223372036854775808 "),
        ("a (1)", "a 1 "),
        ("a AS B (NULL , 'x');", "a as b NULL 'x' "),
        ("a (1, 9223372036854775808)", "outside"),
        ("a 1,", "unread"),
        ("a (1", "unread"),
        ("a ()", "unread"),
        ("a ((1))", "unread"),
        ("a as 1", "unread"),
        ("null 1", "unread"),
        ("a 1;;", "unread"),
    ];
    for (text, want) in table {
        let got = reading(rt.alloc(), text)?;
        assert_eq!(rt; got.as_str(), want, "of {text}");
    }
    Ok(())
}

#[test]
fn reads_a_long_text(rt: HostRuntime) -> Result<(), Fail> {
    let mut text = String::from_str(rt.alloc(), "a '")?;
    for _ in 0..60_000 {
        text.push_str("x")?;
    }
    text.push_str("'")?;
    let got = reading(rt.alloc(), text.as_str())?;
    text.push_str(" ")?;
    assert_eq!(rt; got.as_str(), text.as_str());
    Ok(())
}

/// The integer that a text begins with, if it begins with a number, and whether that is the whole.
fn integer_first(alloc: Global, text: &str) -> Result<(Option<Option<i64>>, bool), Fail> {
    let found = tokens(alloc, text)?;
    let mut reader = Reader::new(text, found.as_slice());
    let integer = match reader.takes_number() {
        Some(digits) => Some(integer_of(digits)),
        None => None,
    };
    Ok((integer, reader.is_at_end()))
}

#[test]
fn takes_numbers(rt: HostRuntime) -> Result<(), Fail> {
    let table = [
        ("05", Some(Some(5)), true),
        ("7 a", Some(Some(7)), false),
        ("9223372036854775807", Some(Some(i64::MAX)), true),
        ("9223372036854775808", Some(None), true),
        ("a", None, false),
        ("", None, true),
    ];
    for (text, integer, whole) in table {
        assert_eq!(rt;
            integer_first(rt.alloc(), text)?,
            (integer, whole),
            "of {text}"
        );
    }
    let mut text = String::new(rt.alloc());
    for _ in 0..65_535 {
        text.push_str("9")?;
    }
    assert_eq!(rt;
        integer_first(rt.alloc(), text.as_str())?,
        (Some(None), true)
    );
    Ok(())
}
