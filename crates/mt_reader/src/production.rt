ghost use Rattle.std.specs.Prelude.{◌≡◌, ◌<◌, Option, Some, List, length, map, IfOk, IfSome};
ghost use Rattle.std.specs.List.{All};
ghost use Rattle.mt_lexer.specs.Tokens.{Lexeme, Word, Sign, lower};
ghost use Rattle.mt_reader.specs.Descent.{separated_of, bracketed_of, maybe_of, pushed};
ghost use Rattle.mt_reader.specs.Taken.{TakesInside};

use crate::ReadFault;
use crate::reader::Reader;
use mt_lexer::Symbol;
use mt_list::List;
use mt_value::Str;
use std::alloc::{AllocError, Global};

/// A form that may stand in a list with commas between. It is a type with no values, so that a crate
/// can say how the trees of another one are read.
pub trait Production {
    /// What the form spells.
    type Tree: Drop;

    ghost read: { List Lexeme → Option (Self.Tree × List Lexeme) };

    ghost is_inside: { Self.Tree → Type 0 };

    /// Takes an item, a token of it at least; `None` is one with a number outside 64 bits.
    fn take(alloc: Global, reader: &mut Reader<'_>) -> Result<Option<Self::Tree>, ReadFault>
        ensures taken { TakesInside is_inside result reader.new (read reader.old) }
        ensures shrinks { IfOk result (λ _. length reader.new < length reader.old) };
}

/// A name, as an item of a list.
pub enum NameForm {}

impl Production for NameForm {
    ghost use Rattle.mt_reader.specs.Descent.{name_of};

    type Tree = Str;

    ghost read = { name_of };

    ghost is_inside = { λ _. Unit {0} };

    fn take(alloc: Global, reader: &mut Reader<'_>) -> Result<Option<Str>, ReadFault> {
        Ok(Some(reader.name(alloc)?))
    }
}

/// Takes items with commas between them, one or more; `None` is for a number outside 64 bits.
pub fn separated<P: Production>(
    alloc: Global,
    reader: &mut Reader<'_>,
) -> Result<Option<List<P::Tree>>, ReadFault>
    ensures { TakesInside (All P.is_inside) result reader.new (separated_of P.read (Sign Symbol.Comma) reader.old) }
{
    let mut items = Some(List::new(alloc));
    loop {
        items = pushed(items, P::take(alloc, reader)?)?;
        if !reader.takes_symbol(Symbol::Comma) {
            return Ok(items);
        }
    }
}

/// Takes items in brackets with commas between them, one or more; `None` is for a number outside 64
/// bits.
#[tactic(auto, unfolding(crate::specs::Descent::bracketed_of))]
pub fn bracketed<P: Production>(
    alloc: Global,
    reader: &mut Reader<'_>,
) -> Result<Option<List<P::Tree>>, ReadFault>
    ensures { TakesInside (All P.is_inside) result reader.new (bracketed_of (separated_of P.read (Sign Symbol.Comma)) reader.old) }
{
    reader.symbol(Symbol::Open)?;
    let items = separated::<P>(alloc, reader)?;
    reader.symbol(Symbol::Close)?;
    Ok(items)
}

/// Takes an item behind this word, in any ASCII case, if the word comes next. The inner `None` is for
/// no such word, and the outer one for a number outside 64 bits.
pub fn optional<P: Production>(
    alloc: Global,
    reader: &mut Reader<'_>,
    word: &[u8],
) -> Result<Option<Option<P::Tree>>, ReadFault>
    ensures { TakesInside (λ found. IfSome found P.is_inside) result reader.new (maybe_of P.read (Word (map lower word.now)) reader.old) }
{
    if !reader.takes_word(word) {
        return Ok(Some(None));
    }
    match P::take(alloc, reader)? {
        Some(tree) => Ok(Some(Some(tree))),
        None => Ok(None),
    }
}

/// The items with one more, if all are there and it is.
pub fn pushed<T: Drop>(
    items: Option<List<T>>,
    item: Option<T>,
) -> Result<Option<List<T>>, AllocError>
    ensures { IfOk result (λ more. more ≡ pushed items item) }
{
    match (items, item) {
        (Some(mut items), Some(item)) => {
            items.push(item)?;
            Ok(Some(items))
        }
        _ => Ok(None),
    }
}
