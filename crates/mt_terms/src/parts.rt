//! What holds a part of a form while the next one is read. A type that is not known is dropped by one call, where
//! a tree is taken apart at each exit.

ghost use Rattle.std.specs.Prelude.{◌≡◌, Option, Ok, Err, IfOk, IfErr};
ghost use Rattle.std.specs.Option.{option_zip};
ghost use Rattle.mt_lexer.specs.Tokens.{Sign};
ghost use Rattle.mt_reader.specs.Descent.{after};
ghost use Rattle.mt_reader.specs.Taken.{TakesExactly};

use mt_lexer::Symbol;
use mt_reader::{ReadFault, Reader};

/// Takes the bracket that closes behind this.
#[inline(always)]
pub(crate) fn closed<T: Drop>(reader: &mut Reader<'_>, inner: T) -> Result<T, ReadFault>
    ensures taken { TakesExactly result (λ _. reader.new) (after (Sign Symbol.Close) reader.old) }
    ensures kept { IfOk result (λ kept. kept ≡ inner) }
{
    reader.symbol(Symbol::Close)?;
    Ok(inner)
}

/// This, and what was read behind it, if both are there.
#[inline(always)]
pub(crate) fn paired<A: Drop, B: Drop>(
    first: Option<A>,
    second: Result<Option<B>, ReadFault>,
) -> Result<Option<(A, B)>, ReadFault>
    ensures read { IfOk result (λ pair. (held : Option B) × (second ≡ Ok held) × (pair ≡ option_zip first held)) }
    ensures fault { IfErr result (λ e. second ≡ Err e) }
{
    match second {
        Ok(second) => Ok(first.zip(second)),
        Err(fault) => Err(fault),
    }
}
