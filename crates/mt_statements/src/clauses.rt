ghost use Rattle.std.specs.Prelude.{◌≡◌, Some, map, IfSome};
ghost use Rattle.std.specs.List.{All};
ghost use Rattle.mt_lexer.specs.Tokens.{Word, lower};
ghost use Rattle.mt_statements.specs.QueryDescent.{listed_of, clauses_of};
ghost use Rattle.mt_statements.specs.QueryInside.{IsNumberInside, IsKeyInside};
ghost use Rattle.mt_statements.specs.Within.{IsClausesInside};
ghost use Rattle.mt_statements.specs.declared.clauses.Clauses.{Clauses};
ghost use Rattle.mt_reader.specs.Taken.{Keeps, TakesInside};
ghost use Rattle.mt_terms.specs.Inside.{IsCondInside};

use crate::key::KeyForm;
use crate::name::NumberForm;
use mt_list::List;
use mt_reader::{Production, ReadFault, Reader, optional, separated};
use mt_terms::{ColumnForm, ConditionForm};
use mt_tree::{ColName, Cond, OrderKey};
use std::alloc::Global;

/// What stands behind the references of a SELECT.
#[derive(Drop)]
pub(crate) struct Clauses {
    pub(crate) cond: Option<Cond>,
    pub(crate) group: List<ColName>,
    pub(crate) having: Option<Cond>,
    pub(crate) order: List<OrderKey>,
    pub(crate) limit: Option<u64>,
}

/// Takes the clauses that are there; `None` is for a number outside 64 bits, here and below.
#[tactic(auto, unfolding(crate::specs::QueryDescent::clauses_of))]
pub(crate) fn take_clauses(
    alloc: Global,
    reader: &mut Reader<'_>,
) -> Result<Option<Clauses>, ReadFault>
    ensures { TakesInside IsClausesInside result reader.new (clauses_of reader.old) }
{
    let cond = optional::<ConditionForm>(alloc, reader, b"where")?;
    let group = listed::<ColumnForm>(alloc, reader, b"group")?;
    let having = optional::<ConditionForm>(alloc, reader, b"having")?;
    let order = listed::<KeyForm>(alloc, reader, b"order")?;
    let limit = optional::<NumberForm>(alloc, reader, b"limit")?;
    Ok(gathered(cond, group, having, order, limit))
}

/// The clauses, if each of them is there.
fn gathered(
    cond: Option<Option<Cond>>,
    group: Option<List<ColName>>,
    having: Option<Option<Cond>>,
    order: Option<List<OrderKey>>,
    limit: Option<Option<u64>>,
) -> Option<Clauses>
    ensures { (tree : Clauses) → Keeps (λ c. IfSome c IsCondInside) cond tree.cond → Keeps (All (λ _. Unit {0})) group tree.group → Keeps (λ c. IfSome c IsCondInside) having tree.having → Keeps (All IsKeyInside) order tree.order → Keeps (λ n. IfSome n IsNumberInside) limit tree.limit → Keeps IsClausesInside result tree }
{
    Some(Clauses {
        cond: cond?,
        group: group?,
        having: having?,
        order: order?,
        limit: limit?,
    })
}

/// Takes this word, BY, and items with commas between, if the word comes next.
#[tactic(auto, unfolding(crate::specs::QueryDescent::listed_of))]
fn listed<P: Production>(
    alloc: Global,
    reader: &mut Reader<'_>,
    word: &[u8],
) -> Result<Option<List<P::Tree>>, ReadFault>
    ensures { TakesInside (All P.is_inside) result reader.new (listed_of P.read (Word (map lower word.now)) reader.old) }
{
    if !reader.takes_word(word) {
        return Ok(Some(List::new(alloc)));
    }
    reader.word(b"by")?;
    separated::<P>(alloc, reader)
}
