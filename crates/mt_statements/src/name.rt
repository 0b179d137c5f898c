ghost use Rattle.std.specs.Prelude.{◌≡◌, Some};
ghost use Rattle.mt_lexer.specs.Tokens.{Word};
ghost use Rattle.mt_statements.specs.QueryDescent.{as_name_of};
ghost use Rattle.mt_statements.specs.QueryInside.{IsNumberInside};
ghost use Rattle.mt_reader.specs.Descent.{number_of};
ghost use Rattle.mt_reader.specs.Taken.{TakesExactly, TakesInside};

use mt_reader::{Production, ReadFault, Reader, size_of};
use mt_value::Str;
use std::alloc::Global;

/// Takes AS and a name, if AS comes next.
#[tactic(auto, unfolding(crate::specs::QueryDescent::as_name_of, mt_reader::specs::Descent::maybe_of))]
pub(crate) fn as_name(alloc: Global, reader: &mut Reader<'_>) -> Result<Option<Str>, ReadFault>
    ensures { TakesExactly result (λ name. (name, reader.new)) (as_name_of reader.old) }
{
    if !reader.takes_word(b"as") {
        return Ok(None);
    }
    Ok(Some(reader.name(alloc)?))
}

/// A number, as what stands behind LIMIT.
pub(crate) enum NumberForm {}

impl Production for NumberForm {
    ghost use Rattle.mt_statements.specs.QueryInside.{IsNumberInside};
    ghost use Rattle.mt_reader.specs.Descent.{number_of};

    type Tree = u64;

    ghost read = { number_of };

    ghost is_inside = { IsNumberInside };

    fn take(_alloc: Global, reader: &mut Reader<'_>) -> Result<Option<u64>, ReadFault> {
        number(reader)
    }
}

/// Takes a number; `None` is one outside 64 bits.
pub(crate) fn number(reader: &mut Reader<'_>) -> Result<Option<u64>, ReadFault>
    ensures { TakesInside IsNumberInside result reader.new (number_of reader.old) }
{
    let digits = reader.number()?;
    Ok(size_of(digits))
}
