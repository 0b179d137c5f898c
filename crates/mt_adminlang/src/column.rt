ghost use Rattle.mt_reader.specs.Taken.{TakesExactly, TakesInside};
ghost use Rattle.mt_adminlang.specs.Descent.{varchar_of, kind_of, not_null_of, def_of, extension_def_of};
ghost use Rattle.mt_adminlang.specs.Inside.{IsKindInside, IsDefInside};

use mt_lexer::Symbol;
use mt_reader::{Production, ReadFault, Reader, size_of};
use mt_tree::{Def, DefKind};
use std::alloc::Global;

/// The definition of a column of a table, as an item of a list.
pub(crate) enum DefForm {}

impl Production for DefForm {
    ghost use Rattle.mt_adminlang.specs.Descent.{def_of};
    ghost use Rattle.mt_adminlang.specs.Inside.{IsDefInside};

    type Tree = Def;

    ghost read = { def_of };

    ghost is_inside = { IsDefInside };

    fn take(alloc: Global, reader: &mut Reader<'_>) -> Result<Option<Def>, ReadFault> {
        definition(alloc, reader)
    }
}

/// The definition of a column of an extension, where NOT NULL may not stand, as an item of a list.
pub(crate) enum ExtensionDefForm {}

impl Production for ExtensionDefForm {
    ghost use Rattle.mt_adminlang.specs.Descent.{extension_def_of};
    ghost use Rattle.mt_adminlang.specs.Inside.{IsDefInside};

    type Tree = Def;

    ghost read = { extension_def_of };

    ghost is_inside = { IsDefInside };

    fn take(alloc: Global, reader: &mut Reader<'_>) -> Result<Option<Def>, ReadFault> {
        extension_definition(alloc, reader)
    }
}

/// Takes a column of a table; `None` is for a number outside 64 bits, here and below.
#[tactic(auto, unfolding(crate::specs::Descent::def_of))]
fn definition(alloc: Global, reader: &mut Reader<'_>) -> Result<Option<Def>, ReadFault>
    ensures { TakesInside IsDefInside result reader.new (def_of reader.old) }
{
    let name = reader.name(alloc)?;
    let kind = kind(reader)?;
    let not_null = not_null(reader)?;
    match kind {
        Some(kind) => Ok(Some(Def {
            name,
            kind,
            not_null,
        })),
        None => Ok(None),
    }
}

/// Takes a column of an extension.
#[tactic(auto, unfolding(crate::specs::Descent::extension_def_of))]
fn extension_definition(alloc: Global, reader: &mut Reader<'_>) -> Result<Option<Def>, ReadFault>
    ensures { TakesInside IsDefInside result reader.new (extension_def_of reader.old) }
{
    let name = reader.name(alloc)?;
    let kind = kind(reader)?;
    match kind {
        Some(kind) => Ok(Some(Def {
            name,
            kind,
            not_null: false,
        })),
        None => Ok(None),
    }
}

/// Takes the kind of a column.
#[tactic(auto, unfolding(crate::specs::Descent::kind_of))]
fn kind(reader: &mut Reader<'_>) -> Result<Option<DefKind>, ReadFault>
    ensures { TakesInside IsKindInside result reader.new (kind_of reader.old) }
{
    if reader.takes_word(b"integer") {
        return Ok(Some(DefKind::Integer));
    }
    reader.word(b"varchar")?;
    varchar(reader)
}

/// Takes the size of a VARCHAR.
#[tactic(auto, unfolding(crate::specs::Descent::varchar_of))]
fn varchar(reader: &mut Reader<'_>) -> Result<Option<DefKind>, ReadFault>
    ensures { TakesInside IsKindInside result reader.new (varchar_of reader.old) }
{
    reader.symbol(Symbol::Open)?;
    let size = size_of(reader.number()?);
    reader.symbol(Symbol::Close)?;
    Ok(size.map(DefKind::Varchar))
}

/// Takes NOT NULL, if NOT comes next.
#[tactic(auto, unfolding(crate::specs::Descent::not_null_of))]
fn not_null(reader: &mut Reader<'_>) -> Result<bool, ReadFault>
    ensures { TakesExactly result (λ flag. (flag, reader.new)) (not_null_of reader.old) }
{
    if !reader.takes_word(b"not") {
        return Ok(false);
    }
    reader.word(b"null")?;
    Ok(true)
}
