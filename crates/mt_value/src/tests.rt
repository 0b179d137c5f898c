use crate::{
    Cmp, Row, Rows, Str, StrFault, Truth, Value, and, compare, compare_any, logic_is_symmetric,
    not, or, orders_are_total, row_order, sort_rows, split_quote, value_order,
};
use mt_list::List;
use std::alloc::Global;
use std::cmp::Ordering;
use std::hash::{DefaultHasher, Hash, Hasher};
use std::test::Fail;

const TRUTHS: [Truth; 3] = [Truth::False, Truth::Unknown, Truth::True];

const OPERATORS: [Cmp; 6] = [Cmp::Eq, Cmp::Ne, Cmp::Lt, Cmp::Le, Cmp::Gt, Cmp::Ge];

#[test]
fn joins_truths(rt: HostRuntime) {
    logic_is_symmetric();
    let ands = [
        [Truth::False, Truth::False, Truth::False],
        [Truth::False, Truth::Unknown, Truth::Unknown],
        [Truth::False, Truth::Unknown, Truth::True],
    ];
    let ors = [
        [Truth::False, Truth::Unknown, Truth::True],
        [Truth::Unknown, Truth::Unknown, Truth::True],
        [Truth::True, Truth::True, Truth::True],
    ];
    for (i, a) in TRUTHS.iter().enumerate() {
        for (j, b) in TRUTHS.iter().enumerate() {
            assert_eq!(rt; and(*a, *b), ands[i][j], "{a:?} AND {b:?}");
            assert_eq!(rt; or(*a, *b), ors[i][j], "{a:?} OR {b:?}");
        }
    }
    assert_eq!(rt; not(Truth::False), Truth::True);
    assert_eq!(rt; not(Truth::Unknown), Truth::Unknown);
    assert_eq!(rt; not(Truth::True), Truth::False);
}

const LESS: [Truth; 6] = [
    Truth::False,
    Truth::True,
    Truth::True,
    Truth::True,
    Truth::False,
    Truth::False,
];

const EQUAL: [Truth; 6] = [
    Truth::True,
    Truth::False,
    Truth::False,
    Truth::True,
    Truth::False,
    Truth::True,
];

const GREATER: [Truth; 6] = [
    Truth::False,
    Truth::True,
    Truth::False,
    Truth::False,
    Truth::True,
    Truth::True,
];

#[test]
fn compares_numbers(rt: HostRuntime) {
    let table = [
        (-1, 0, LESS),
        (i64::MIN, i64::MAX, LESS),
        (7, 7, EQUAL),
        (10, 9, GREATER),
    ];
    for (a, b, wanted) in table {
        for (i, op) in OPERATORS.iter().enumerate() {
            let answer = compare(*op, &Value::Int(a), &Value::Int(b));
            assert_eq!(rt; answer, wanted[i], "{a} {op:?} {b}");
        }
    }
}

#[test]
fn compares_texts(rt: HostRuntime) -> Result<(), Fail> {
    let table = [
        ("a", "b", LESS),
        ("a", "aa", LESS),
        ("aa", "b", LESS),
        ("Zoë", "Zoë", EQUAL),
        ("ë", "z", GREATER),
    ];
    for (a, b, wanted) in table {
        let left = Value::Text(Str::from_bytes(rt.alloc(), a.as_bytes())?);
        let right = Value::Text(Str::from_bytes(rt.alloc(), b.as_bytes())?);
        for (i, op) in OPERATORS.iter().enumerate() {
            assert_eq!(rt; compare(*op, &left, &right), wanted[i], "{a} {op:?} {b}");
        }
    }
    Ok(())
}

#[test]
fn compares_nulls(rt: HostRuntime) -> Result<(), Fail> {
    let text = Value::Text(Str::from_bytes(rt.alloc(), b"a")?);
    for op in OPERATORS {
        assert_eq!(rt; compare(op, &Value::Null, &Value::Null), Truth::Unknown);
        assert_eq!(rt; compare(op, &Value::Int(0), &Value::Null), Truth::Unknown);
        assert_eq!(rt; compare(op, &Value::Null, &text), Truth::Unknown);
    }
    Ok(())
}

#[test]
fn reads_texts(rt: HostRuntime) -> Result<(), Fail> {
    let text = Str::from_bytes(rt.alloc(), "Zoë".as_bytes())?;
    assert_eq!(rt; text.as_str(), "Zoë");
    assert_eq!(rt; text.len(), 4);
    let copied = text.copy()?;
    assert_eq!(rt; copied, text);
    assert_eq!(rt; copied.cmp(&text), Ordering::Equal);
    for bytes in [b"\xff", b"\xc3"] {
        assert_eq!(rt;
            Str::from_bytes(rt.alloc(), bytes).err(),
            Some(StrFault::NotUtf8)
        );
    }
    Ok(())
}

/// A row of a number and a text, or of Nulls where they are left out.
fn row(alloc: Global, number: Option<i64>, text: Option<&str>) -> Result<Row, StrFault> {
    let mut values = List::new(alloc);
    match number {
        Some(number) => values.push(Value::Int(number))?,
        None => values.push(Value::Null)?,
    }
    match text {
        Some(text) => values.push(Value::Text(Str::from_bytes(alloc, text.as_bytes())?))?,
        None => values.push(Value::Null)?,
    }
    Ok(values)
}

#[test]
fn orders_values(rt: HostRuntime) -> Result<(), Fail> {
    let number = Value::Int(i64::MAX);
    let text = Value::Text(Str::from_bytes(rt.alloc(), b"")?);
    assert_eq!(rt;
        value_order(&Value::Null, &Value::Int(i64::MIN)),
        Ordering::Less
    );
    assert_eq!(rt; value_order(&number, &text), Ordering::Less);
    assert_eq!(rt; value_order(&text, &Value::Null), Ordering::Greater);
    assert_eq!(rt; value_order(&Value::Null, &Value::Null), Ordering::Equal);
    Ok(())
}

#[test]
fn sorts_rows(rt: HostRuntime) -> Result<(), Fail> {
    orders_are_total();
    let in_order = [
        (None, None),
        (None, Some("b")),
        (Some(-1), Some("a")),
        (Some(-1), Some("aa")),
        (Some(2), None),
        (Some(2), Some("ë")),
    ];
    let mut wanted = List::new(rt.alloc());
    let mut rows = List::new(rt.alloc());
    for (k, (number, text)) in in_order.iter().enumerate() {
        wanted.push(row(rt.alloc(), *number, *text)?)?;
        let (number, text) = in_order[5 - k];
        rows.push(row(rt.alloc(), number, text)?)?;
    }
    let sorted: Rows = sort_rows(rows.copy()?)?;
    assert_eq!(rt; sorted.len(), 6);
    for (a, b) in sorted.as_slice().iter().zip(wanted.as_slice()) {
        assert_eq!(rt; a.as_slice(), b.as_slice());
        assert_eq!(rt; a.len(), b.len());
        assert_eq!(rt; row_order(a, b), Ordering::Equal);
    }
    Ok(())
}

#[test]
fn splits_at_the_first_quote(rt: HostRuntime) {
    for (text, want) in [
        ("", None),
        ("ab", None),
        ("'", Some(("", ""))),
        ("it's Zoë's", Some(("it", "s Zoë's"))),
        ("''", Some(("", "'"))),
    ] {
        assert_eq!(rt; split_quote(text), want, "of {text}");
    }
}

#[test]
fn makes_texts_of_characters(rt: HostRuntime) -> Result<(), Fail> {
    for text in ["", "a", "Zoë's"] {
        let made = Str::from_str(rt.alloc(), text)?;
        assert_eq!(rt; made.as_str(), text);
    }
    Ok(())
}

#[test]
fn compares_values_of_two_kinds(rt: HostRuntime) -> Result<(), Fail> {
    let number = Value::Int(7);
    let text = Value::Text(Str::from_str(rt.alloc(), "7")?);
    assert_eq!(rt; compare_any(Cmp::Lt, &number, &text), Truth::True);
    assert_eq!(rt; compare_any(Cmp::Eq, &number, &text), Truth::False);
    assert_eq!(rt; compare_any(Cmp::Eq, &text, &Value::Null), Truth::Unknown);
    Ok(())
}

/// What a value feeds a hasher, as one number.
fn hash_of<T: Hash>(value: &T) -> u64 {
    let mut state = DefaultHasher::new();
    value.hash(&mut state);
    state.finish()
}

#[test]
fn rows_are_keys(rt: HostRuntime) -> Result<(), Fail> {
    let alloc = rt.alloc();
    let first = row(alloc, Some(1), Some("a"))?;
    let same = row(alloc, Some(1), Some("a"))?;
    assert!(rt; first == same);
    assert_eq!(rt; hash_of(&first), hash_of(&same));
    for (number, text) in [(Some(2), Some("a")), (None, Some("a")), (Some(1), None)] {
        let other = row(alloc, number, text)?;
        assert!(rt; first != other);
        assert_ne!(rt; hash_of(&first), hash_of(&other));
    }
    Ok(())
}

#[test]
fn takes_bytes_as_a_text(rt: HostRuntime) -> Result<(), Fail> {
    let text = Str::from_vec(Vec::from_slice(rt.alloc(), "Zoë".as_bytes())?);
    assert!(rt; text.is_some_and(|text| text.as_str() == "Zoë"));
    assert!(rt; Str::from_vec(Vec::from_slice(rt.alloc(), b"Zo\xc3")?).is_none());
    let longest = Str::from_vec(vec![in rt.alloc(); b'a'; 65_536]?);
    assert!(rt; longest.is_some_and(|text| text.len() == 65_536));
    Ok(())
}
