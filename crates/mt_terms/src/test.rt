ghost use Rattle.std.specs.Prelude.{◌≡◌, Option, option_map, option_and_then, codes};
ghost use Rattle.mt_lexer.specs.Tokens.{Word};
ghost use Rattle.mt_reader.specs.Descent.{after};
ghost use Rattle.mt_reader.specs.Taken.{TakesAny, TakesInside};
ghost use Rattle.mt_terms.specs.Descent.{cmp_of, compare_of, said_of, tested_of, worded_of, member_of, between_of, like_of, atom_of};
ghost use Rattle.mt_terms.specs.Inside.{IsAtomInside, IsTestInside};

use crate::form::AtomForm;
use crate::leaf::atom;
use crate::parts::paired;
use mt_lexer::Symbol;
use mt_list::List;
use mt_reader::{ReadFault, Reader, bracketed};
use mt_tree::Atom;
use mt_value::Cmp;
use sqlite_items::Items;
use std::alloc::Global;

/// What a predicate says of its first atom, behind a word.
#[derive(Drop)]
pub(crate) enum Test {
    Member(bool, Items<Atom>),
    Between(bool, Atom, Atom),
    Like(bool, Atom),
    IsNull(bool),
}

/// Takes what begins with a word: IS, IN, BETWEEN or LIKE, with NOT before the last three or without; `None`
/// is for a number outside 64 bits, here and below.
#[tactic(auto, unfolding(crate::specs::Descent::said_of))]
pub(crate) fn said(alloc: Global, reader: &mut Reader<'_>) -> Result<Option<Test>, ReadFault>
    ensures { TakesInside IsTestInside result reader.new (said_of reader.old) }
{
    if reader.takes_word(b"is") {
        return null_test(reader);
    }
    if reader.takes_word(b"not") {
        worded(alloc, reader, true)
    } else {
        worded(alloc, reader, false)
    }
}

/// Takes a sign that compares, if there is one.
#[tactic(auto, unfolding(crate::specs::Descent::compare_of))]
pub(crate) fn comparison(reader: &mut Reader<'_>) -> Option<Cmp>
    ensures { TakesAny result reader.old reader.new (compare_of reader.old) }
{
    let op = cmp_of(reader.first_symbol()?)?;
    reader.skip();
    Some(op)
}

/// The comparison that a symbol stands for.
fn cmp_of(symbol: Symbol) -> Option<Cmp>
    ensures { result ≡ cmp_of symbol }
{
    match symbol {
        Symbol::Equal => Some(Cmp::Eq),
        Symbol::NotEqual => Some(Cmp::Ne),
        Symbol::Less => Some(Cmp::Lt),
        Symbol::LessEqual => Some(Cmp::Le),
        Symbol::Greater => Some(Cmp::Gt),
        Symbol::GreaterEqual => Some(Cmp::Ge),
        _ => None,
    }
}

/// Takes what stands behind IS.
#[tactic(auto, unfolding(crate::specs::Descent::tested_of))]
fn null_test(reader: &mut Reader<'_>) -> Result<Option<Test>, ReadFault>
    ensures { TakesInside IsTestInside result reader.new (tested_of reader.old) }
{
    if reader.takes_word(b"not") {
        reader.word(b"null")?;
        return Ok(Some(Test::IsNull(true)));
    }
    reader.word(b"null")?;
    Ok(Some(Test::IsNull(false)))
}

/// Takes IN, BETWEEN or LIKE, and what stands behind.
#[tactic(auto, unfolding(crate::specs::Descent::worded_of))]
fn worded(alloc: Global, reader: &mut Reader<'_>, negated: bool) -> Result<Option<Test>, ReadFault>
    ensures { TakesInside IsTestInside result reader.new (worded_of negated reader.old) }
{
    if reader.takes_word(b"in") {
        return member(alloc, reader, negated);
    }
    if reader.takes_word(b"between") {
        return between(alloc, reader, negated);
    }
    reader.word(b"like")?;
    like(alloc, reader, negated)
}

/// Takes the list of IN.
#[tactic(auto, unfolding(crate::specs::Descent::member_of))]
fn member(alloc: Global, reader: &mut Reader<'_>, negated: bool) -> Result<Option<Test>, ReadFault>
    ensures { TakesInside IsTestInside result reader.new (member_of negated reader.old) }
{
    let list = bracketed::<AtomForm>(alloc, reader)?;
    Ok(listed(negated, list))
}

/// Takes the two bounds of BETWEEN. The AND between them is its own.
#[tactic(auto, unfolding(crate::specs::Descent::between_of))]
fn between(alloc: Global, reader: &mut Reader<'_>, negated: bool) -> Result<Option<Test>, ReadFault>
    ensures { TakesInside IsTestInside result reader.new (between_of negated reader.old) }
{
    let low = atom(alloc, reader)?;
    let bounds = paired(low, bound(alloc, reader))?;
    Ok(bounded(negated, bounds))
}

/// Takes the AND between the bounds, and the second one.
fn bound(alloc: Global, reader: &mut Reader<'_>) -> Result<Option<Atom>, ReadFault>
    ensures { TakesInside IsAtomInside result reader.new (option_and_then atom_of (after (Word (codes "and")) reader.old)) }
{
    reader.word(b"and")?;
    atom(alloc, reader)
}

/// Takes the pattern of LIKE.
#[tactic(auto, using(crate::proofs::Inside::keeps_like), unfolding(crate::specs::Descent::like_of))]
fn like(alloc: Global, reader: &mut Reader<'_>, negated: bool) -> Result<Option<Test>, ReadFault>
    ensures { TakesInside IsTestInside result reader.new (like_of negated reader.old) }
{
    let pattern = atom(alloc, reader)?;
    Ok(matched(negated, pattern))
}

fn listed(negated: bool, list: Option<List<Atom>>) -> Option<Test>
    ensures { result ≡ option_map (Test.Member negated) list }
{
    Some(Test::Member(negated, Items::from_vec(list?.into_vec())))
}

fn bounded(negated: bool, bounds: Option<(Atom, Atom)>) -> Option<Test>
    ensures { result ≡ option_map (λ bounds. Test.Between negated bounds.0 bounds.1) bounds }
{
    let (low, high) = bounds?;
    Some(Test::Between(negated, low, high))
}

fn matched(negated: bool, pattern: Option<Atom>) -> Option<Test>
    ensures { result ≡ option_map (Test.Like negated) pattern }
{
    Some(Test::Like(negated, pattern?))
}
