ghost use Rattle.std.specs.Prelude.{◌≡◌};
ghost use Rattle.mt_fold.specs.Folds.{place_in};
ghost use Rattle.mt_fold.specs.Placements.{HasPlace, folded_at};

use crate::{Place, Placement};

/// Where a column of a Row lies: the generation of the Row's fold, and the place in it. It takes no
/// memory.
pub fn place_of(placement: &Placement, column: usize, row: u64) -> (u8, Place)
    requires { HasPlace placement.now column }
    ensures { result ≡ ((folded_at placement.now row).generation, place_in (folded_at placement.now row).fold column) }
{
    match placement {
        Placement::Settled { generation, fold } => (*generation, *fold.places.get(column)),
        Placement::Moving {
            generation,
            before,
            after,
            frontier,
            upto,
        } => {
            if *frontier <= row && row < *upto {
                (*generation, *before.places.get(column))
            } else {
                (1 - *generation, *after.places.get(column))
            }
        }
    }
}
