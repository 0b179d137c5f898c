ghost use Rattle.std.specs.Prelude.{◌≡◌, OnOk};
ghost use Rattle.mt_reader.specs.Descent.{pushed};

use mt_list::List;
use std::alloc::AllocError;

/// Adds an item to those that are kept, in their place. Where it is not there, none are kept from then on.
#[inline(always)]
pub(crate) fn push<T: Drop>(items: &mut Option<List<T>>, item: Option<T>) -> Result<(), AllocError>
    ensures { OnOk result (items.new ≡ pushed items.old item) }
{
    let Some(item) = item else {
        *items = None;
        return Ok(());
    };
    if let Some(items) = items {
        items.push(item)?;
    }
    Ok(())
}
