ghost use Rattle.std.specs.Prelude.{◌≡◌, option_map};
ghost use Rattle.std.specs.List.{All};
ghost use Rattle.mt_statements.specs.QueryDescent.{item_of, select_items_of};
ghost use Rattle.mt_statements.specs.QueryInside.{IsItemInside};
ghost use Rattle.mt_reader.specs.Taken.{TakesInside};

use crate::name::as_name;
use mt_lexer::Symbol;
use mt_list::List;
use mt_reader::{Production, ReadFault, Reader, separated};
use mt_terms::read_expression;
use mt_tree::Expr;
use mt_value::Str;
use std::alloc::Global;

/// Takes the star, as no items, or items with commas between; `None` is for a number outside 64 bits,
/// here and below.
#[tactic(auto, unfolding(crate::specs::QueryDescent::select_items_of))]
pub(crate) fn items(
    alloc: Global,
    reader: &mut Reader<'_>,
) -> Result<Option<List<mt_tree::Item>>, ReadFault>
    ensures { TakesInside (All IsItemInside) result reader.new (select_items_of reader.old) }
{
    if reader.takes_symbol(Symbol::Star) {
        return Ok(Some(List::new(alloc)));
    }
    separated::<OutputForm>(alloc, reader)
}

/// What a SELECT gives, as an item of a list.
enum OutputForm {}

impl Production for OutputForm {
    ghost use Rattle.mt_statements.specs.QueryDescent.{item_of};
    ghost use Rattle.mt_statements.specs.QueryInside.{IsItemInside};

    type Tree = mt_tree::Item;

    ghost read = { item_of };

    ghost is_inside = { IsItemInside };

    fn take(alloc: Global, reader: &mut Reader<'_>) -> Result<Option<mt_tree::Item>, ReadFault> {
        item(alloc, reader)
    }
}

/// Takes an expression, and AS and a name, if AS comes next.
#[tactic(auto, unfolding(crate::specs::QueryDescent::item_of))]
fn item(alloc: Global, reader: &mut Reader<'_>) -> Result<Option<mt_tree::Item>, ReadFault>
    ensures { TakesInside IsItemInside result reader.new (item_of reader.old) }
{
    let expr = read_expression(alloc, reader)?;
    let name = as_name(alloc, reader)?;
    Ok(named(expr, name))
}

/// The item that an expression is.
fn named(expr: Option<Expr>, name: Option<Str>) -> Option<mt_tree::Item>
    ensures { result ≡ option_map (λ e. record { expr = e; name = name }) expr }
{
    Some(mt_tree::Item { expr: expr?, name })
}
