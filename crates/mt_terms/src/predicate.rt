ghost use Rattle.std.specs.Prelude.{◌≡◌, option_map};
ghost use Rattle.mt_tree.specs.declared.expression.Atom.{Atom};
ghost use Rattle.mt_reader.specs.Taken.{Keeps, TakesInside};
ghost use Rattle.mt_terms.specs.Descent.{plain_of, compared_of, said_with, cond_with};
ghost use Rattle.mt_terms.specs.Inside.{IsAtomInside, IsCondInside};

use crate::leaf::{atom, integer, integer_atom};
use crate::parts::paired;
use crate::test::{Test, comparison, said};
use mt_reader::{ReadFault, Reader};
use mt_tree::{Atom, Cond};
use mt_value::Cmp;
use std::alloc::Global;

/// Takes a predicate: an atom, and what is said of it.
#[tactic(auto, unfolding(crate::specs::Descent::plain_of))]
pub(crate) fn predicate(alloc: Global, reader: &mut Reader<'_>) -> Result<Option<Cond>, ReadFault>
    ensures { TakesInside IsCondInside result reader.new (plain_of reader.old) }
{
    let first = atom(alloc, reader)?;
    if let Some(op) = comparison(reader) {
        return compared(alloc, reader, op, first);
    }
    tested(alloc, reader, first)
}

/// Takes the second atom of a comparison.
fn compared(
    alloc: Global,
    reader: &mut Reader<'_>,
    op: Cmp,
    left: Option<Atom>,
) -> Result<Option<Cond>, ReadFault>
    ensures { (a : Atom) → Keeps IsAtomInside left a → TakesInside IsCondInside result reader.new (compared_of op a reader.old) }
{
    let Some(number) = integer(reader) else {
        let atoms = paired(left, atom(alloc, reader))?;
        return Ok(compares(op, atoms));
    };
    Ok(compares(op, left.zip(integer_atom(number))))
}

/// Takes what else is said of an atom.
fn tested(
    alloc: Global,
    reader: &mut Reader<'_>,
    atom: Option<Atom>,
) -> Result<Option<Cond>, ReadFault>
    ensures { (a : Atom) → Keeps IsAtomInside atom a → TakesInside IsCondInside result reader.new (said_with a reader.old) }
{
    let parts = paired(atom, said(alloc, reader))?;
    Ok(says(parts))
}

/// The predicate that compares two atoms.
#[inline(always)]
fn compares(op: Cmp, atoms: Option<(Atom, Atom)>) -> Option<Cond>
    ensures { result ≡ option_map (λ pair. Cond.Compare op pair.0 pair.1) atoms }
{
    let (left, right) = atoms?;
    Some(Cond::Compare { op, left, right })
}

/// The predicate that says this of an atom.
fn says(parts: Option<(Atom, Test)>) -> Option<Cond>
    ensures { result ≡ option_map (λ parts. cond_with parts.0 parts.1) parts }
{
    let (atom, test) = parts?;
    Some(tested_by(atom, test))
}

fn tested_by(atom: Atom, test: Test) -> Cond
    ensures { result ≡ cond_with atom test }
{
    match test {
        Test::Member(negated, list) => Cond::Member {
            negated,
            atom,
            list,
        },
        Test::Between(negated, low, high) => Cond::Between {
            negated,
            atom,
            low,
            high,
        },
        Test::Like(negated, pattern) => Cond::Like {
            negated,
            atom,
            pattern,
        },
        Test::IsNull(negated) => Cond::IsNull { negated, atom },
    }
}
