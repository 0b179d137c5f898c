#![tactic(auto, unfolding(crate::specs::Spaced::spaced))]

ghost use Rattle.std.specs.Prelude.{◌≡◌, ◌∷◌, ◌++◌, map, OnOk};
ghost use Rattle.mt_lexer.specs.Tokens.{Word, Sign};
ghost use Rattle.mt_lexer.specs.declared.token.Symbol.TheVariants as symbol;
ghost use Rattle.mt_show.specs.Spaced.{spaced};
ghost use Rattle.mt_terms.specs.Expression.{sign_of};
ghost use Rattle.mt_terms.specs.Condition.{comparison_symbol};
ghost use Rattle.mt_show.specs.Printing.{placed};
ghost use Rattle.mt_show.specs.declared.place.Place.TheVariants.{Inner};
ghost use Rattle.mt_show.specs.Shown.{between, bracketed, int_tokens, column_tokens, agg_tokens, expr_places, sum_tokens, cond_places, comparison_tokens, membership_tokens, range_tokens, likeness_tokens, null_test_tokens};

use crate::part::{Part, bracket, flag, listed, symbol_between, word_between};
use crate::place::Place;
use crate::printer::Printer;
use mt_lexer::Symbol;
use mt_tree::{Agg, Atom, ColName, Cond, Expr, Literal, Term};
use mt_value::Cmp;
use std::alloc::AllocError;

impl Part for ColName {
    ghost use Rattle.mt_show.specs.Shown.{column_tokens};

    ghost tokens = { column_tokens };

    fn print(&self, printer: &mut Printer) -> Result<(), AllocError> {
        match &self.qualifier {
            None => printer.word(self.name.as_str()),
            Some(qualifier) => {
                printer.word(qualifier.as_str())?;
                printer.symbol(Symbol::Dot)?;
                printer.word(self.name.as_str())
            }
        }
    }
}

impl Part for Literal {
    ghost use Rattle.mt_show.specs.Shown.{literal_tokens};

    ghost tokens = { literal_tokens };

    fn print(&self, printer: &mut Printer) -> Result<(), AllocError> {
        match self {
            Literal::Null => printer.word("null"),
            Literal::Int(number) => int(printer, *number),
            Literal::Text(text) => printer.quoted(text),
        }
    }
}

/// Prints an integer, with its minus as a token of its own.
fn int(printer: &mut Printer, number: i64) -> Result<(), AllocError>
    ensures { OnOk result (printer.new ≡ printer.old ++ spaced (int_tokens number)) }
{
    if number >= 0 {
        return printer.number(number.unsigned_abs());
    }
    printer.symbol(Symbol::Minus)?;
    printer.number(number.unsigned_abs())
}

/// Prints an aggregate.
fn aggregate(printer: &mut Printer, agg: &Agg) -> Result<(), AllocError>
    ensures { OnOk result (printer.new ≡ printer.old ++ spaced (agg_tokens agg.now)) }
{
    match agg {
        Agg::CountAll => {
            printer.word("count")?;
            printer.symbol(Symbol::Open)?;
            printer.symbol(Symbol::Star)?;
            printer.symbol(Symbol::Close)
        }
        Agg::Count(column) => call(printer, "count", column),
        Agg::Sum(column) => call(printer, "sum", column),
        Agg::Min(column) => call(printer, "min", column),
        Agg::Max(column) => call(printer, "max", column),
    }
}

/// Prints a function of a column.
fn call(printer: &mut Printer, function: &str, column: &ColName) -> Result<(), AllocError>
    ensures { OnOk result (printer.new ≡ printer.old ++ spaced (Word function.now ∷ bracketed (column_tokens column.now))) }
{
    printer.word(function)?;
    printer.symbol(Symbol::Open)?;
    column.print(printer)?;
    printer.symbol(Symbol::Close)
}

impl Part for Atom {
    ghost use Rattle.mt_show.specs.declared.place.Place.TheVariants.{Inner};
    ghost use Rattle.mt_show.specs.Shown.{atom_tokens};

    ghost tokens = { atom_tokens };

    fn print(&self, printer: &mut Printer) -> Result<(), AllocError> {
        match self {
            Atom::Column(column) => column.print(printer),
            Atom::Literal(literal) => literal.print(printer),
            Atom::Agg(agg) => aggregate(printer, agg),
        }
    }
}

/// Prints an expression, in brackets where its place needs them.
#[cycle(expression)]
pub(crate) fn expression(printer: &mut Printer, expr: &Expr, place: Place) -> Result<(), AllocError>
    ensures { OnOk result (printer.new ≡ printer.old ++ spaced (placed place (expr_places expr.now))) }
{
    match expr {
        Expr::Atom(atom) => atom.print(printer),
        Expr::Sum(terms) => {
            bracket(printer, place.is_member(), Symbol::Open)?;
            sum(printer, terms.as_slice())?;
            bracket(printer, place.is_member(), Symbol::Close)
        }
        Expr::Product(members) => {
            bracket(printer, place.is_inner(), Symbol::Open)?;
            product(printer, members.as_slice())?;
            bracket(printer, place.is_inner(), Symbol::Close)
        }
    }
}

/// Prints the members of a sum, each but the first behind its sign.
#[cycle(expression)]
fn sum(printer: &mut Printer, terms: &[Term]) -> Result<(), AllocError>
    ensures { OnOk result (printer.new ≡ printer.old ++ spaced (sum_tokens (map (λ term. (term.minus, expr_places term.expr)) terms.now))) }
{
    for (index, term) in terms.iter().enumerate() {
        symbol_between(printer, index, sign(term.minus))?;
        expression(printer, &term.expr, Place::Outer)?;
    }
    Ok(())
}

/// Prints the members of a product.
#[cycle(expression)]
fn product(printer: &mut Printer, members: &[Expr]) -> Result<(), AllocError>
    ensures { OnOk result (printer.new ≡ printer.old ++ spaced (between (Sign symbol.Star) (map (λ member. placed Inner (expr_places member)) members.now))) }
{
    for (index, member) in members.iter().enumerate() {
        symbol_between(printer, index, Symbol::Star)?;
        expression(printer, member, Place::Inner)?;
    }
    Ok(())
}

/// The sign in front of a member of a sum.
fn sign(minus: bool) -> Symbol
    ensures { Sign result ≡ sign_of minus }
{
    if minus { Symbol::Minus } else { Symbol::Plus }
}

/// Prints a condition, in brackets where its place needs them.
#[cycle(condition)]
pub(crate) fn condition(printer: &mut Printer, cond: &Cond, place: Place) -> Result<(), AllocError>
    ensures { OnOk result (printer.new ≡ printer.old ++ spaced (placed place (cond_places cond.now))) }
{
    match cond {
        Cond::Or(members) => {
            bracket(printer, place.is_member(), Symbol::Open)?;
            joined(printer, members.as_slice(), "or", Place::Outer)?;
            bracket(printer, place.is_member(), Symbol::Close)
        }
        Cond::And(members) => {
            bracket(printer, place.is_inner(), Symbol::Open)?;
            joined(printer, members.as_slice(), "and", Place::Inner)?;
            bracket(printer, place.is_inner(), Symbol::Close)
        }
        Cond::Not(inner) => {
            printer.word("not")?;
            condition(printer, inner.get(), Place::Inner)
        }
        Cond::Compare { op, left, right } => comparison(printer, *op, left, right),
        Cond::Member {
            negated,
            atom,
            list,
        } => membership(printer, *negated, atom, list.as_slice()),
        Cond::Between {
            negated,
            atom,
            low,
            high,
        } => range(printer, *negated, atom, low, high),
        Cond::Like {
            negated,
            atom,
            pattern,
        } => likeness(printer, *negated, atom, pattern),
        Cond::IsNull { negated, atom } => null_test(printer, *negated, atom),
    }
}

/// Prints conditions with a word between.
#[cycle(condition)]
fn joined(
    printer: &mut Printer,
    members: &[Cond],
    word: &str,
    place: Place,
) -> Result<(), AllocError>
    ensures { OnOk result (printer.new ≡ printer.old ++ spaced (between (Word word.now) (map (λ member. placed place (cond_places member)) members.now))) }
{
    for (index, member) in members.iter().enumerate() {
        word_between(printer, index, word)?;
        condition(printer, member, place)?;
    }
    Ok(())
}

/// Prints the comparison of two atoms.
fn comparison(printer: &mut Printer, op: Cmp, left: &Atom, right: &Atom) -> Result<(), AllocError>
    ensures { OnOk result (printer.new ≡ printer.old ++ spaced (comparison_tokens op left.now right.now)) }
{
    left.print(printer)?;
    printer.symbol(comparison_symbol(op))?;
    right.print(printer)
}

/// Prints that an atom is one of a list.
fn membership(
    printer: &mut Printer,
    negated: bool,
    atom: &Atom,
    list: &[Atom],
) -> Result<(), AllocError>
    ensures { OnOk result (printer.new ≡ printer.old ++ spaced (membership_tokens negated atom.now list.now)) }
{
    atom.print(printer)?;
    flag(printer, negated, "not")?;
    printer.word("in")?;
    printer.symbol(Symbol::Open)?;
    listed(printer, list)?;
    printer.symbol(Symbol::Close)
}

/// Prints that an atom lies between two others.
fn range(
    printer: &mut Printer,
    negated: bool,
    atom: &Atom,
    low: &Atom,
    high: &Atom,
) -> Result<(), AllocError>
    ensures { OnOk result (printer.new ≡ printer.old ++ spaced (range_tokens negated atom.now low.now high.now)) }
{
    atom.print(printer)?;
    flag(printer, negated, "not")?;
    printer.word("between")?;
    low.print(printer)?;
    printer.word("and")?;
    high.print(printer)
}

/// Prints that an atom is like a pattern.
fn likeness(
    printer: &mut Printer,
    negated: bool,
    atom: &Atom,
    pattern: &Atom,
) -> Result<(), AllocError>
    ensures { OnOk result (printer.new ≡ printer.old ++ spaced (likeness_tokens negated atom.now pattern.now)) }
{
    atom.print(printer)?;
    flag(printer, negated, "not")?;
    printer.word("like")?;
    pattern.print(printer)
}

/// Prints that an atom is NULL.
fn null_test(printer: &mut Printer, negated: bool, atom: &Atom) -> Result<(), AllocError>
    ensures { OnOk result (printer.new ≡ printer.old ++ spaced (null_test_tokens negated atom.now)) }
{
    atom.print(printer)?;
    printer.word("is")?;
    flag(printer, negated, "not")?;
    printer.word("null")
}

/// How a comparison is written.
fn comparison_symbol(op: Cmp) -> Symbol
    ensures { result ≡ comparison_symbol op }
{
    match op {
        Cmp::Eq => Symbol::Equal,
        Cmp::Ne => Symbol::NotEqual,
        Cmp::Lt => Symbol::Less,
        Cmp::Le => Symbol::LessEqual,
        Cmp::Gt => Symbol::Greater,
        Cmp::Ge => Symbol::GreaterEqual,
    }
}
