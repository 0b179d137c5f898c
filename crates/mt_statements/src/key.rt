ghost use Rattle.std.specs.Prelude.{◌≡◌, Some};
ghost use Rattle.mt_statements.specs.QueryDescent.{by_of, direction_of, key_of};
ghost use Rattle.mt_statements.specs.QueryInside.{IsByInside, IsKeyInside};
ghost use Rattle.mt_reader.specs.Taken.{TakesInside};

use crate::name::number;
use mt_reader::{Production, ReadFault, Reader};
use mt_tree::{OrderBy, OrderKey};
use std::alloc::Global;

/// A key of ORDER BY, as an item of a list.
pub(crate) enum KeyForm {}

impl Production for KeyForm {
    ghost use Rattle.mt_statements.specs.QueryDescent.{key_of};
    ghost use Rattle.mt_statements.specs.QueryInside.{IsKeyInside};

    type Tree = OrderKey;

    ghost read = { key_of };

    ghost is_inside = { IsKeyInside };

    fn take(alloc: Global, reader: &mut Reader<'_>) -> Result<Option<OrderKey>, ReadFault> {
        key(alloc, reader)
    }
}

/// Takes a name or a number, and a direction, if there is one; `None` is for a number outside 64 bits,
/// here and below.
#[tactic(auto, unfolding(crate::specs::QueryDescent::key_of))]
fn key(alloc: Global, reader: &mut Reader<'_>) -> Result<Option<OrderKey>, ReadFault>
    ensures { TakesInside IsKeyInside result reader.new (key_of reader.old) }
{
    let by = order_by(alloc, reader)?;
    let desc = is_descending(reader);
    match by {
        Some(by) => Ok(Some(OrderKey { by, desc })),
        None => Ok(None),
    }
}

/// Takes a name or a number.
#[tactic(auto, unfolding(crate::specs::QueryDescent::by_of))]
fn order_by(alloc: Global, reader: &mut Reader<'_>) -> Result<Option<OrderBy>, ReadFault>
    ensures { TakesInside IsByInside result reader.new (by_of reader.old) }
{
    if reader.begins_with_word() {
        return Ok(Some(OrderBy::Name(reader.name(alloc)?)));
    }
    let position = number(reader)?;
    Ok(position.map(OrderBy::Position))
}

/// Takes ASC or DESC, if one comes next: whether it is DESC.
#[tactic(auto, unfolding(crate::specs::QueryDescent::direction_of))]
fn is_descending(reader: &mut Reader<'_>) -> bool
    ensures { direction_of reader.old ≡ Some (result, reader.new) }
{
    if reader.takes_word(b"desc") {
        return true;
    }
    let _ = reader.takes_word(b"asc");
    false
}
