ghost use Rattle.std.specs.Prelude.{◌≡◌, List, true, is_some, option_map};
ghost use Rattle.mt_lexer.specs.Tokens.{Lexeme, Sign};
ghost use Rattle.mt_reader.specs.Descent.{after, bracketed_of};
ghost use Rattle.mt_reader.specs.Taken.{Took, TakesAny, TakesInside};
ghost use Rattle.mt_terms.specs.Descent.{alone_of, term_of, minus_of, sign_of, sum_of, factor_of, expr_of, int_atom};
ghost use Rattle.mt_terms.specs.Inside.{IsExprInside, TookNumber, AddsTerm};

use crate::leaf::{atom, integer, integer_atom};
use crate::members::push;
use crate::parts::closed;
use mt_lexer::Symbol;
use mt_list::List;
use mt_reader::{ReadFault, Reader};
use mt_tree::{Atom, Expr, Term};
use sqlite_items::Items;
use std::alloc::Global;

/// How many brackets, and NOT, may stand about one another.
pub(crate) const DEPTH: usize = 64;

/// Takes an expression; `None` is for a number outside 64 bits, here and below.
#[tactic(auto, unfolding(crate::specs::Descent::expr_of))]
pub(crate) fn expression(alloc: Global, reader: &mut Reader<'_>) -> Result<Option<Expr>, ReadFault>
    ensures { TakesInside IsExprInside result reader.new (expr_of reader.old) }
{
    sum(alloc, reader, DEPTH)
}

/// Takes terms with signs between, with so many brackets about one another at most.
#[cycle(expression)]
fn sum(alloc: Global, reader: &mut Reader<'_>, depth: usize) -> Result<Option<Expr>, ReadFault>
    ensures { TakesInside IsExprInside result reader.new (sum_of (factor_of depth) reader.old) }
{
    let first = product(alloc, reader, depth)?;
    if !is_at_sign(reader) {
        return Ok(first);
    }
    sum_behind(alloc, reader, depth, first)
}

/// Takes the terms behind the first one, with a sign before each, where a sign comes next.
#[cycle(expression)]
fn sum_behind(
    alloc: Global,
    reader: &mut Reader<'_>,
    depth: usize,
    first: Option<Expr>,
) -> Result<Option<Expr>, ReadFault>
    requires { is_some (sign_of reader.old) ≡ true }
    ensures { (lexemes : List Lexeme) → Took IsExprInside first reader.old (term_of (factor_of depth) lexemes) → TakesInside IsExprInside result reader.new (sum_of (factor_of depth) lexemes) }
{
    let mut terms = Some(List::new(alloc));
    push(&mut terms, term(false, first))?;
    while let Some(minus) = sign(reader) {
        add_term(alloc, reader, depth, minus, &mut terms)?;
    }
    Ok(summed(terms))
}

/// Takes the term behind a sign, and adds it to those that are kept. A number goes there at once; other terms are
/// taken in frames of their own, which a number need not clear.
#[cycle(expression)]
fn add_term(
    alloc: Global,
    reader: &mut Reader<'_>,
    depth: usize,
    minus: bool,
    terms: &mut Option<List<Term>>,
) -> Result<(), ReadFault>
    ensures { AddsTerm minus result terms.old terms.new reader.new (term_of (factor_of depth) reader.old) }
{
    let Some(number) = integer(reader) else {
        return add_product(alloc, reader, depth, minus, terms);
    };
    if reader.is_at_symbol(Symbol::Star) {
        return add_product_behind(alloc, reader, depth, minus, number, terms);
    }
    push(terms, integer_term(minus, number))?;
    Ok(())
}

/// Takes the factors behind a sign, and adds their product to the terms that are kept.
#[cycle(expression)]
#[inline(never)]
fn add_product(
    alloc: Global,
    reader: &mut Reader<'_>,
    depth: usize,
    minus: bool,
    terms: &mut Option<List<Term>>,
) -> Result<(), ReadFault>
    ensures { AddsTerm minus result terms.old terms.new reader.new (term_of (factor_of depth) reader.old) }
{
    let next = product(alloc, reader, depth)?;
    push(terms, term(minus, next))?;
    Ok(())
}

/// Takes the factors behind a sign and a number, and adds the product of all to the terms that are kept.
#[cycle(expression)]
#[inline(never)]
fn add_product_behind(
    alloc: Global,
    reader: &mut Reader<'_>,
    depth: usize,
    minus: bool,
    number: Option<i64>,
    terms: &mut Option<List<Term>>,
) -> Result<(), ReadFault>
    requires { is_some (after (Sign Symbol.Star) reader.old) ≡ true }
    ensures { (lexemes : List Lexeme) → TookNumber number lexemes reader.old → AddsTerm minus result terms.old terms.new reader.new (term_of (factor_of depth) lexemes) }
{
    let next = product_behind(alloc, reader, depth, integer_alone(number))?;
    push(terms, term(minus, next))?;
    Ok(())
}

/// Takes factors with stars between.
#[cycle(expression)]
fn product(alloc: Global, reader: &mut Reader<'_>, depth: usize) -> Result<Option<Expr>, ReadFault>
    ensures { TakesInside IsExprInside result reader.new (term_of (factor_of depth) reader.old) }
{
    let first = factor(alloc, reader, depth)?;
    if !reader.is_at_symbol(Symbol::Star) {
        return Ok(first);
    }
    product_behind(alloc, reader, depth, first)
}

/// Takes the factors behind the first one, with a star before each, where a star comes next.
#[cycle(expression)]
fn product_behind(
    alloc: Global,
    reader: &mut Reader<'_>,
    depth: usize,
    first: Option<Expr>,
) -> Result<Option<Expr>, ReadFault>
    requires { is_some (after (Sign Symbol.Star) reader.old) ≡ true }
    ensures { (lexemes : List Lexeme) → Took IsExprInside first reader.old (factor_of depth lexemes) → TakesInside IsExprInside result reader.new (term_of (factor_of depth) lexemes) }
{
    let mut factors = Some(List::new(alloc));
    push(&mut factors, first)?;
    while reader.takes_symbol(Symbol::Star) {
        let next = factor(alloc, reader, depth)?;
        push(&mut factors, next)?;
    }
    Ok(multiplied(factors))
}

/// Takes an atom, or a sum in brackets.
#[cycle(expression)]
fn factor(alloc: Global, reader: &mut Reader<'_>, depth: usize) -> Result<Option<Expr>, ReadFault>
    ensures { TakesInside IsExprInside result reader.new (factor_of depth reader.old) }
{
    if depth == 0 {
        return alone(alloc, reader);
    }
    if !reader.is_at_symbol(Symbol::Open) {
        return alone(alloc, reader);
    }
    sum_in_brackets(alloc, reader, depth - 1)
}

/// Takes a sum in brackets.
#[cycle(expression)]
#[tactic(auto, unfolding(mt_reader::specs::Descent::bracketed_of))]
fn sum_in_brackets(
    alloc: Global,
    reader: &mut Reader<'_>,
    depth: usize,
) -> Result<Option<Expr>, ReadFault>
    ensures { TakesInside IsExprInside result reader.new (bracketed_of (sum_of (factor_of depth)) reader.old) }
{
    reader.symbol(Symbol::Open)?;
    let inner = sum(alloc, reader, depth)?;
    closed(reader, inner)
}

/// Takes an atom by itself.
#[tactic(auto, using(crate::proofs::Inside::keeps_atom), unfolding(crate::specs::Descent::alone_of))]
fn alone(alloc: Global, reader: &mut Reader<'_>) -> Result<Option<Expr>, ReadFault>
    ensures { TakesInside IsExprInside result reader.new (alone_of reader.old) }
{
    let found = atom(alloc, reader)?;
    Ok(leaf(found))
}

/// The expression that an atom is.
fn leaf(found: Option<Atom>) -> Option<Expr>
    ensures { result ≡ option_map Expr.Atom found }
{
    Some(Expr::Atom(found?))
}

/// Whether a sign comes first.
#[tactic(auto, unfolding(crate::specs::Descent::sign_of))]
fn is_at_sign(reader: &Reader<'_>) -> bool
    ensures { result ≡ is_some (sign_of reader.now) }
{
    match reader.first_symbol() {
        Some(symbol) => minus_of(symbol).is_some(),
        None => false,
    }
}

/// Takes a sign, if there is one: whether it is a minus.
#[tactic(auto, unfolding(crate::specs::Descent::sign_of))]
fn sign(reader: &mut Reader<'_>) -> Option<bool>
    ensures { TakesAny result reader.old reader.new (sign_of reader.old) }
{
    let minus = minus_of(reader.first_symbol()?)?;
    reader.skip();
    Some(minus)
}

/// Whether a symbol is the sign of a minus, or of a plus.
fn minus_of(symbol: Symbol) -> Option<bool>
    ensures { result ≡ minus_of symbol }
{
    match symbol {
        Symbol::Plus => Some(false),
        Symbol::Minus => Some(true),
        _ => None,
    }
}

/// One member of a sum.
fn term(minus: bool, expr: Option<Expr>) -> Option<Term>
    ensures { result ≡ option_map (λ e. record { minus = minus; expr = e }) expr }
{
    Some(Term { minus, expr: expr? })
}

/// The expression that an integer is.
fn integer_alone(integer: Option<i64>) -> Option<Expr>
    ensures { result ≡ option_map Expr.Atom (option_map int_atom integer) }
{
    Some(Expr::Atom(integer_atom(integer)?))
}

/// One member of a sum that is an integer.
fn integer_term(minus: bool, integer: Option<i64>) -> Option<Term>
    ensures { result ≡ option_map (λ e. record { minus = minus; expr = e }) (option_map Expr.Atom (option_map int_atom integer)) }
{
    term(minus, integer_alone(integer))
}

/// The sum of these members.
fn summed(terms: Option<List<Term>>) -> Option<Expr>
    ensures { result ≡ option_map Expr.Sum terms }
{
    Some(Expr::Sum(Items::from_vec(terms?.into_vec())))
}

/// The product of these members.
fn multiplied(factors: Option<List<Expr>>) -> Option<Expr>
    ensures { result ≡ option_map Expr.Product factors }
{
    Some(Expr::Product(Items::from_vec(factors?.into_vec())))
}
