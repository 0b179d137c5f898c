ghost use Rattle.mt_reader.specs.Taken.{TakesExactly};
ghost use Rattle.mt_reader.specs.Descent.{names_of};

use mt_reader::{NameForm, ReadFault, Reader, bracketed};
use mt_tree::Names;
use std::alloc::Global;

/// Takes names in brackets, with commas between.
pub(crate) fn names(alloc: Global, reader: &mut Reader<'_>) -> Result<Names, ReadFault>
    ensures { TakesExactly result (λ names. (names, reader.new)) (names_of reader.old) }
{
    let Some(names) = bracketed::<NameForm>(alloc, reader)? else {
        unreachable!();
    };
    Ok(names)
}
