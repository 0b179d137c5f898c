use crate::{
    ColumnForm, ConditionForm, ExpressionForm, read_condition, read_expression,
    terms_are_determined,
};
use mt_lexer::tokens;
use mt_reader::{Production, ReadFault, Reader};
use mt_tree::{Atom, Cond, Expr, Literal, Term};
use mt_value::Cmp;
use std::alloc::{AllocError, Global};
use std::fmt::Debug;
use std::test::Fail;

/// What a text reads as, with dots where something is left, or why it does not.
fn reading<P: Production>(alloc: Global, text: &str) -> Result<String, Fail>
where
    P::Tree: Debug,
{
    let found = tokens(alloc, text)?;
    let mut reader = Reader::new(text, found.as_slice());
    match P::take(alloc, &mut reader) {
        Ok(Some(tree)) => {
            let left = if reader.is_at_end() { "" } else { " .." };
            Ok(format!(in alloc; "{tree:?}{left}")?)
        }
        Ok(None) => Ok(String::from_str(alloc, "outside")?),
        Err(ReadFault::Unread) => Ok(String::from_str(alloc, "unread")?),
        Err(ReadFault::Memory) => Err(AllocError)?,
    }
}

#[test]
fn reads_expressions(rt: HostRuntime) -> Result<(), Fail> {
    terms_are_determined();
    let table = [
        ("COUNT ( * ) b", "Atom(Agg(CountAll)) .."),
        (
            "Max(T.a)",
            "Atom(Agg(Max(ColName { qualifier: Some(Str { text: \"t\" }), name: Str { text: \"a\" } })))",
        ),
        (
            "((-9223372036854775808))",
            "Atom(Literal(Int(-9223372036854775808)))",
        ),
        (
            "1 - 2*3",
            "Sum(Items { items: [Term { minus: false, expr: Atom(Literal(Int(1))) }, Term { minus: true, expr: Product(Items { items: [Atom(Literal(Int(2))), Atom(Literal(Int(3)))] }) }] })",
        ),
        (
            "(NULL+-5)*'it''s'",
            "Product(Items { items: [Sum(Items { items: [Term { minus: false, expr: Atom(Literal(Null)) }, Term { minus: false, expr: Atom(Literal(Int(-5))) }] }), Atom(Literal(Text(Str { text: \"it's\" })))] })",
        ),
        ("1 * 9223372036854775808", "outside"),
        ("1 - 9223372036854775808 b", "outside"),
        ("a.", "unread"),
        ("- a", "unread"),
        ("(a", "unread"),
        ("MIN(*)", "unread"),
        ("select", "unread"),
    ];
    for (text, want) in table {
        let got = reading::<ExpressionForm>(rt.alloc(), text)?;
        assert_eq!(rt; got.as_str(), want, "of {text}");
    }
    Ok(())
}

#[test]
fn reads_conditions(rt: HostRuntime) -> Result<(), Fail> {
    let table = [
        (
            "1=1 or 2<>2 and NOT 3<4",
            "Or(Items { items: [Compare { op: Eq, left: Literal(Int(1)), right: Literal(Int(1)) }, And(Items { items: [Compare { op: Ne, left: Literal(Int(2)), right: Literal(Int(2)) }, Not(Boxed { inner: Compare { op: Lt, left: Literal(Int(3)), right: Literal(Int(4)) } })] })] })",
        ),
        (
            "(1>=2) = 3",
            "Compare { op: Ge, left: Literal(Int(1)), right: Literal(Int(2)) } ..",
        ),
        (
            "1 BETWEEN 2 AND 3 AND 4<=5",
            "And(Items { items: [Between { negated: false, atom: Literal(Int(1)), low: Literal(Int(2)), high: Literal(Int(3)) }, Compare { op: Le, left: Literal(Int(4)), right: Literal(Int(5)) }] })",
        ),
        (
            "1 not in (2, NULL)",
            "Member { negated: true, atom: Literal(Int(1)), list: Items { items: [Literal(Int(2)), Literal(Null)] } }",
        ),
        (
            "1 NOT LIKE 'x%'",
            "Like { negated: true, atom: Literal(Int(1)), pattern: Literal(Text(Str { text: \"x%\" })) }",
        ),
        (
            "1 IS NOT NULL",
            "IsNull { negated: true, atom: Literal(Int(1)) }",
        ),
        ("a is null or a = 9223372036854775808", "outside"),
        ("(a) = b", "unread"),
        ("a IN ()", "unread"),
        ("a NOT = b", "unread"),
    ];
    for (text, want) in table {
        let got = reading::<ConditionForm>(rt.alloc(), text)?;
        assert_eq!(rt; got.as_str(), want, "of {text}");
    }
    Ok(())
}

#[test]
fn reads_a_column(rt: HostRuntime) -> Result<(), Fail> {
    let got = reading::<ColumnForm>(rt.alloc(), "A, b")?;
    assert_eq!(rt;
        got.as_str(),
        "ColName { qualifier: None, name: Str { text: \"a\" } } .."
    );
    Ok(())
}

/// A text, one that is repeated so many times, and a third.
fn repeated(
    alloc: Global,
    front: &str,
    unit: &str,
    times: u32,
    back: &str,
) -> Result<String, AllocError> {
    let mut out = String::from_str(alloc, front)?;
    for _ in 0..times {
        out.push_str(unit)?;
    }
    out.push_str(back)?;
    Ok(out)
}

/// The text between so many brackets.
fn in_brackets(alloc: Global, text: &str, depth: u32) -> Result<String, AllocError> {
    let opened = repeated(alloc, "", "(", depth, text)?;
    repeated(alloc, opened.as_str(), ")", depth, "")
}

#[test]
fn limits_brackets(rt: HostRuntime) -> Result<(), Fail> {
    for (text, depth, is_read) in [("1", 64, true), ("1", 65, false)] {
        let text = in_brackets(rt.alloc(), text, depth)?;
        let got = reading::<ExpressionForm>(rt.alloc(), text.as_str())?;
        assert_eq!(rt; got.as_str() != "unread", is_read, "at {depth}");
    }
    for (text, depth, is_read) in [
        ("1=1", 64, true),
        ("1=1", 65, false),
        ("NOT 1=1", 63, true),
        ("NOT 1=1", 64, false),
    ] {
        let text = in_brackets(rt.alloc(), text, depth)?;
        let got = reading::<ConditionForm>(rt.alloc(), text.as_str())?;
        assert_eq!(rt; got.as_str() != "unread", is_read, "at {depth}");
    }
    Ok(())
}

/// The expression that a whole text is.
fn whole_expression(alloc: Global, text: &str) -> Result<Option<Expr>, Fail> {
    let found = tokens(alloc, text)?;
    let mut reader = Reader::new(text, found.as_slice());
    let read = read_expression(alloc, &mut reader);
    if !reader.is_at_end() {
        return Ok(None);
    }
    match read {
        Ok(tree) => Ok(tree),
        Err(ReadFault::Unread) => Ok(None),
        Err(ReadFault::Memory) => Err(AllocError)?,
    }
}

/// The condition that a whole text is.
fn whole_condition(alloc: Global, text: &str) -> Result<Option<Cond>, Fail> {
    let found = tokens(alloc, text)?;
    let mut reader = Reader::new(text, found.as_slice());
    let read = read_condition(alloc, &mut reader);
    if !reader.is_at_end() {
        return Ok(None);
    }
    match read {
        Ok(tree) => Ok(tree),
        Err(ReadFault::Unread) => Ok(None),
        Err(ReadFault::Memory) => Err(AllocError)?,
    }
}

fn is_a(atom: &Atom) -> bool {
    match atom {
        Atom::Column(column) => column.qualifier.is_none() && column.name.as_str() == "a",
        Atom::Literal(_) | Atom::Agg(_) => false,
    }
}

fn is_one(atom: &Atom) -> bool {
    matches!(atom, Atom::Literal(Literal::Int(1)))
}

fn is_plus_one(term: &Term) -> bool {
    match &term.expr {
        Expr::Atom(atom) => !term.minus && is_one(atom),
        Expr::Sum(_) | Expr::Product(_) => false,
    }
}

fn is_a_equal_one(cond: &Cond) -> bool {
    match cond {
        Cond::Compare {
            op: Cmp::Eq,
            left,
            right,
        } => is_a(left) && is_one(right),
        _ => false,
    }
}

#[test]
fn reads_a_sum_of_a_whole_line(rt: HostRuntime) -> Result<(), Fail> {
    let text = repeated(rt.alloc(), "1", "+1", 32_749, "")?;
    assert_eq!(rt; text.len(), 65_499);
    match whole_expression(rt.alloc(), text.as_str())? {
        Some(Expr::Sum(terms)) => {
            assert_eq!(rt; terms.len(), 32_750);
            assert!(rt; terms.as_slice().iter().all(|term| is_plus_one(term)));
        }
        _ => panic!(rt; "no sum"),
    }
    Ok(())
}

#[test]
fn reads_an_and_of_a_whole_line(rt: HostRuntime) -> Result<(), Fail> {
    let text = repeated(rt.alloc(), "a=1", " AND a=1", 8_187, "")?;
    assert_eq!(rt; text.len(), 65_499);
    match whole_condition(rt.alloc(), text.as_str())? {
        Some(Cond::And(members)) => {
            assert_eq!(rt; members.len(), 8_188);
            assert!(rt;
                members
                    .as_slice()
                    .iter()
                    .all(|member| is_a_equal_one(member))
            );
        }
        _ => panic!(rt; "no AND"),
    }
    Ok(())
}

#[test]
fn reads_a_list_of_16_000_atoms(rt: HostRuntime) -> Result<(), Fail> {
    let text = repeated(rt.alloc(), "a IN (1", ",1", 15_999, ")")?;
    match whole_condition(rt.alloc(), text.as_str())? {
        Some(
            Cond::Member {
                negated: false,
                atom,
                list,
            },
        ) => {
            assert!(rt; is_a(&atom));
            assert_eq!(rt; list.len(), 16_000);
            assert!(rt; list.as_slice().iter().all(|member| is_one(member)));
        }
        _ => panic!(rt; "no list"),
    }
    Ok(())
}
