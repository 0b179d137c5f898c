use crate::show;
use mt_tree::{Atom, ColName, Cond, Filter, Literal, Stmt};
use mt_value::{Cmp, Str};
use sqlite_items::{Boxed, Items};
use std::alloc::Global;
use std::test::Fail;

/// The condition `a = 1`.
fn compared(alloc: Global) -> Result<Cond, Fail> {
    let column = ColName {
        qualifier: None,
        name: Str::from_bytes(alloc, b"a")?,
    };
    Ok(Cond::Compare {
        op: Cmp::Eq,
        left: Atom::Column(column),
        right: Atom::Literal(Literal::Int(1)),
    })
}

/// An AND and an OR of one member each, as which no text reads, are shown in the brackets of any other.
#[test]
fn shows_a_tree_of_no_text(rt: HostRuntime) -> Result<(), Fail> {
    let alloc = rt.alloc();
    let either = Cond::Or(Items::from_vec(vec![in alloc; compared(alloc)?]?));
    let both = Cond::And(Items::from_vec(vec![in alloc; either]?));
    let filter = Filter {
        table: Str::from_bytes(alloc, b"t")?,
        cond: Some(Cond::Not(Boxed::new(alloc, both)?)),
    };
    let shown = show(alloc, &Stmt::Purge(filter))?;
    assert_eq!(rt; shown.as_str(), "PURGE t WHERE NOT ( ( a = 1 ) )");
    Ok(())
}
