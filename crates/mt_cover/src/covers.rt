ghost use Rattle.std.specs.Prelude.{◌≡◌, ◌≤◌, ◌+◌, IfOk};
ghost use Rattle.mt_fold.specs.Covers.{cover_of};

use crate::prices::Prices;
use crate::wanted::Wanted;
use mt_fold::Shapes;
use std::alloc::{AllocError, Global};

/// The shapes of the cheapest chunks that have fields for so many integers and texts, ascending; of
/// several such lists the first in the order of a dictionary. Fails for want of memory alone.
pub fn cover(alloc: Global, numbers: u32, texts: u32) -> Result<Shapes, AllocError>
    requires few { numbers + texts ≤ 32 }
    ensures { IfOk result (λ shapes. shapes ≡ cover_of numbers texts) }
{
    let wanted = Wanted {
        numbers: numbers as usize,
        texts: texts as usize,
    };
    let prices = Prices::up_to(alloc, wanted)?;
    prices.shapes_for(alloc, wanted)
}
