ghost use Rattle.std.specs.Prelude.{◌≡◌, ◌||◌, List, true, is_some, option_map, codes, IfOk};
ghost use Rattle.mt_lexer.specs.Tokens.{Lexeme, Word, Sign};
ghost use Rattle.mt_reader.specs.Descent.{after, bracketed_of};
ghost use Rattle.mt_reader.specs.Taken.{Took, TakesInside};
ghost use Rattle.mt_terms.specs.Descent.{and_of, or_of, not_of, neg_of, cond_of};
ghost use Rattle.mt_terms.specs.Inside.{IsCondInside, AddsMember};

use crate::members::push;
use crate::parts::closed;
use crate::predicate::predicate;
use crate::sum::DEPTH;
use mt_lexer::Symbol;
use mt_list::List;
use mt_reader::{ReadFault, Reader};
use mt_tree::Cond;
use sqlite_items::{Boxed, Items};
use std::alloc::{AllocError, Global};

/// Takes a condition; `None` is for a number outside 64 bits, here and below.
#[tactic(auto, unfolding(crate::specs::Descent::cond_of))]
pub(crate) fn condition(alloc: Global, reader: &mut Reader<'_>) -> Result<Option<Cond>, ReadFault>
    ensures { TakesInside IsCondInside result reader.new (cond_of reader.old) }
{
    disjunction(alloc, reader, DEPTH)
}

/// Takes conditions with OR between, with so many brackets and NOT about one another at most.
#[cycle(condition)]
fn disjunction(
    alloc: Global,
    reader: &mut Reader<'_>,
    depth: usize,
) -> Result<Option<Cond>, ReadFault>
    ensures { TakesInside IsCondInside result reader.new (or_of (neg_of depth) reader.old) }
{
    let first = conjunction(alloc, reader, depth)?;
    if !reader.is_at(b"or") {
        return Ok(first);
    }
    or_behind(alloc, reader, depth, first)
}

/// Takes the conditions behind the first one, with OR before each, where OR comes next.
#[cycle(condition)]
fn or_behind(
    alloc: Global,
    reader: &mut Reader<'_>,
    depth: usize,
    first: Option<Cond>,
) -> Result<Option<Cond>, ReadFault>
    requires { is_some (after (Word (codes "or")) reader.old) ≡ true }
    ensures { (lexemes : List Lexeme) → Took IsCondInside first reader.old (and_of (neg_of depth) lexemes) → TakesInside IsCondInside result reader.new (or_of (neg_of depth) lexemes) }
{
    let mut members = Some(List::new(alloc));
    push(&mut members, first)?;
    while reader.takes_word(b"or") {
        let next = conjunction(alloc, reader, depth)?;
        push(&mut members, next)?;
    }
    Ok(any_of(members))
}

/// Takes conditions with AND between.
#[cycle(condition)]
fn conjunction(
    alloc: Global,
    reader: &mut Reader<'_>,
    depth: usize,
) -> Result<Option<Cond>, ReadFault>
    ensures { TakesInside IsCondInside result reader.new (and_of (neg_of depth) reader.old) }
{
    let first = negation(alloc, reader, depth)?;
    if !reader.is_at(b"and") {
        return Ok(first);
    }
    and_behind(alloc, reader, depth, first)
}

/// Takes the conditions behind the first one, with AND before each, where AND comes next.
#[cycle(condition)]
fn and_behind(
    alloc: Global,
    reader: &mut Reader<'_>,
    depth: usize,
    first: Option<Cond>,
) -> Result<Option<Cond>, ReadFault>
    requires { is_some (after (Word (codes "and")) reader.old) ≡ true }
    ensures { (lexemes : List Lexeme) → Took IsCondInside first reader.old (neg_of depth lexemes) → TakesInside IsCondInside result reader.new (and_of (neg_of depth) lexemes) }
{
    let mut members = Some(List::new(alloc));
    push(&mut members, first)?;
    while reader.takes_word(b"and") {
        add_member(alloc, reader, depth, &mut members)?;
    }
    Ok(all_of(members))
}

/// Takes the condition behind an AND, and adds it to those that are kept. A predicate goes there at once, and not
/// by way of a call between, which would move it.
#[cycle(condition)]
fn add_member(
    alloc: Global,
    reader: &mut Reader<'_>,
    depth: usize,
    members: &mut Option<List<Cond>>,
) -> Result<(), ReadFault>
    ensures { AddsMember result members.old members.new reader.new (neg_of depth reader.old) }
{
    if begins_nested(reader) {
        return add_nested(alloc, reader, depth, members);
    }
    let next = predicate(alloc, reader)?;
    push(members, next)?;
    Ok(())
}

/// Takes the condition behind an AND that NOT or a bracket begins, and adds it to those that are kept. It has a
/// frame of its own, which a predicate need not clear.
#[cycle(condition)]
#[inline(never)]
fn add_nested(
    alloc: Global,
    reader: &mut Reader<'_>,
    depth: usize,
    members: &mut Option<List<Cond>>,
) -> Result<(), ReadFault>
    ensures { AddsMember result members.old members.new reader.new (neg_of depth reader.old) }
{
    let next = negation(alloc, reader, depth)?;
    push(members, next)?;
    Ok(())
}

/// Whether NOT or a bracket comes first.
fn begins_nested(reader: &Reader<'_>) -> bool
    ensures { result ≡ (is_some (after (Word (codes "not")) reader.now) || is_some (after (Sign Symbol.Open) reader.now)) }
{
    reader.is_at(b"not") || reader.is_at_symbol(Symbol::Open)
}

/// Takes a predicate, or a condition behind NOT or in brackets.
#[cycle(condition)]
fn negation(alloc: Global, reader: &mut Reader<'_>, depth: usize) -> Result<Option<Cond>, ReadFault>
    ensures { TakesInside IsCondInside result reader.new (neg_of depth reader.old) }
{
    if depth == 0 {
        return predicate(alloc, reader);
    }
    if reader.is_at(b"not") {
        return denial(alloc, reader, depth - 1);
    }
    if reader.is_at_symbol(Symbol::Open) {
        return condition_in_brackets(alloc, reader, depth - 1);
    }
    predicate(alloc, reader)
}

/// Takes NOT, and a condition behind it.
#[cycle(condition)]
#[tactic(auto, unfolding(crate::specs::Descent::not_of), using(crate::proofs::Inside::keeps_not))]
fn denial(alloc: Global, reader: &mut Reader<'_>, depth: usize) -> Result<Option<Cond>, ReadFault>
    ensures { TakesInside IsCondInside result reader.new (not_of (neg_of depth) reader.old) }
{
    reader.word(b"not")?;
    let inner = negation(alloc, reader, depth)?;
    Ok(negated(alloc, inner)?)
}

/// Takes a condition in brackets.
#[cycle(condition)]
#[tactic(auto, unfolding(mt_reader::specs::Descent::bracketed_of))]
fn condition_in_brackets(
    alloc: Global,
    reader: &mut Reader<'_>,
    depth: usize,
) -> Result<Option<Cond>, ReadFault>
    ensures { TakesInside IsCondInside result reader.new (bracketed_of (or_of (neg_of depth)) reader.old) }
{
    reader.symbol(Symbol::Open)?;
    let inner = disjunction(alloc, reader, depth)?;
    closed(reader, inner)
}

/// The condition that denies this one.
fn negated(alloc: Global, inner: Option<Cond>) -> Result<Option<Cond>, AllocError>
    ensures { IfOk result (λ c. c ≡ option_map Cond.Not inner) }
{
    match inner {
        Some(inner) => Ok(Some(Cond::Not(Boxed::new(alloc, inner)?))),
        None => Ok(None),
    }
}

/// The condition that one of these holds.
fn any_of(members: Option<List<Cond>>) -> Option<Cond>
    ensures { result ≡ option_map Cond.Or members }
{
    Some(Cond::Or(Items::from_vec(members?.into_vec())))
}

/// The condition that all of these hold.
fn all_of(members: Option<List<Cond>>) -> Option<Cond>
    ensures { result ≡ option_map Cond.And members }
{
    Some(Cond::And(Items::from_vec(members?.into_vec())))
}
