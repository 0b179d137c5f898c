ghost use Rattle.std.specs.Prelude.{◌≡◌, IfSome, IfNone, option_map};
ghost use Rattle.mt_reader.specs.Taken.{TakesInside};
ghost use Rattle.mt_terms.specs.Descent.{atom_of, begins_reserved_atom, reserved_atom_of, column_atom_of, literal_atom_of, int_atom};
ghost use Rattle.mt_terms.specs.Inside.{IsAtomInside, TookNumber};

use crate::function::aggregate;
use crate::name::column;
use mt_reader::{LiteralForm, Production, ReadFault, Reader, integer_of};
use mt_tree::{Atom, Literal};
use std::alloc::Global;

/// Takes an atom; `None` is for a number outside 64 bits, here and below.
#[inline(always)]
pub(crate) fn atom(alloc: Global, reader: &mut Reader<'_>) -> Result<Option<Atom>, ReadFault>
    ensures { TakesInside IsAtomInside result reader.new (atom_of reader.old) }
{
    if !reader.begins_with_word() {
        return literal_atom(alloc, reader);
    }
    if begins_reserved_atom(reader) {
        return reserved_atom(alloc, reader);
    }
    column_atom(alloc, reader)
}

/// Whether one of the reserved words comes first that begin an atom. The reading of a name asks for the others.
#[inline(always)]
fn begins_reserved_atom(reader: &Reader<'_>) -> bool
    ensures { result ≡ begins_reserved_atom reader.now }
{
    reader.is_at(b"null")
        || reader.is_at(b"count")
        || reader.is_at(b"sum")
        || reader.is_at(b"min")
        || reader.is_at(b"max")
}

/// Takes a column.
#[tactic(auto, unfolding(crate::specs::Descent::column_atom_of))]
#[inline(always)]
fn column_atom(alloc: Global, reader: &mut Reader<'_>) -> Result<Option<Atom>, ReadFault>
    ensures { TakesInside IsAtomInside result reader.new (column_atom_of reader.old) }
{
    let column = column(alloc, reader)?;
    Ok(Some(Atom::Column(column)))
}

/// Takes NULL or an aggregate.
#[tactic(auto, unfolding(crate::specs::Descent::reserved_atom_of))]
#[inline(never)]
fn reserved_atom(alloc: Global, reader: &mut Reader<'_>) -> Result<Option<Atom>, ReadFault>
    ensures { TakesInside IsAtomInside result reader.new (reserved_atom_of reader.old) }
{
    if reader.is_at(b"null") {
        return literal_atom(alloc, reader);
    }
    let found = aggregate(alloc, reader)?;
    Ok(Some(Atom::Agg(found)))
}

/// Takes a literal.
#[tactic(auto, unfolding(crate::specs::Descent::literal_atom_of))]
#[inline(never)]
fn literal_atom(alloc: Global, reader: &mut Reader<'_>) -> Result<Option<Atom>, ReadFault>
    ensures { TakesInside IsAtomInside result reader.new (literal_atom_of reader.old) }
{
    let literal = LiteralForm::take(alloc, reader)?;
    Ok(literal.map(Atom::Literal))
}

/// Takes a number, if one comes first; the inner `None` is for one outside 64 bits. It is an atom by itself, and
/// moves as one word where other atoms move as eight.
pub(crate) fn integer(reader: &mut Reader<'_>) -> Option<Option<i64>>
    ensures some { IfSome result (λ kept. TookNumber kept reader.old reader.new) }
    ensures none { IfNone result (reader.new ≡ reader.old) }
{
    let Some(digits) = reader.takes_number() else {
        return None;
    };
    Some(integer_of(digits))
}

/// The atom that an integer is.
pub(crate) fn integer_atom(integer: Option<i64>) -> Option<Atom>
    ensures { result ≡ option_map int_atom integer }
{
    Some(Atom::Literal(Literal::Int(integer?)))
}
