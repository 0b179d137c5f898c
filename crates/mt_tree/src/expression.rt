use crate::name::ColName;
use mt_value::{Cmp, Str};
use sqlite_items::{Boxed, Items};

/// A literal.
#[derive(Debug, Drop)]
pub enum Literal {
    Null,
    Int(i64),
    Text(Str),
}

/// An aggregate: `COUNT(*)`, or a function of a column.
#[derive(Debug, Drop)]
pub enum Agg {
    CountAll,
    Count(ColName),
    Sum(ColName),
    Min(ColName),
    Max(ColName),
}

/// What expressions and conditions are made of.
#[derive(Debug, Drop)]
pub enum Atom {
    Column(ColName),
    Literal(Literal),
    Agg(Agg),
}

/// An expression. Sums and products are lists of two or more members; brackets show by nesting.
#[derive(Debug, Drop)]
#[cycle(expression)]
pub enum Expr {
    Atom(Atom),
    Sum(Items<Term>),
    Product(Items<Expr>),
}

/// One member of a sum. `minus` of the first one is false.
#[derive(Debug, Drop)]
#[cycle(expression)]
pub struct Term {
    pub minus: bool,
    pub expr: Expr,
}

/// A condition. OR and AND are lists of two or more members; brackets show by nesting.
#[derive(Debug, Drop)]
pub enum Cond {
    Or(Items<Cond>),
    And(Items<Cond>),
    Not(Boxed<Cond>),
    Compare {
        op: Cmp,
        left: Atom,
        right: Atom,
    },
    Member {
        negated: bool,
        atom: Atom,
        list: Items<Atom>,
    },
    Between {
        negated: bool,
        atom: Atom,
        low: Atom,
        high: Atom,
    },
    Like {
        negated: bool,
        atom: Atom,
        pattern: Atom,
    },
    IsNull {
        negated: bool,
        atom: Atom,
    },
}
