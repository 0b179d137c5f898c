use crate::Shapes;
use mt_list::{Duplicate, List};
use std::alloc::{AllocError, Global};

/// Where a column lies: in its field of the conventional row, or in a field of a chunk. Chunks and the
/// fields of a chunk are counted from 0.
#[derive(Clone, Copy, Debug, PartialEq, Eq)]
pub enum Place {
    Conv,
    Field { chunk: u8, field: u8 },
}

/// The places of a table's columns, in the order of the columns.
pub type Places = List<Place>;

/// How a table is cut: the shapes of its chunks, and the place of each column.
#[derive(Debug, Drop)]
pub struct Fold {
    pub shapes: Shapes,
    pub places: Places,
}

/// How the rows of a table lie: all in one fold, or, while it is re-folded, those with a Row from the
/// frontier up to `upto` in the old fold, which has the generation, and all others in the new one,
/// which has the other generation. A generation is 0 or 1.
#[derive(Debug, Drop)]
pub enum Placement {
    Settled {
        generation: u8,
        fold: Fold,
    },
    Moving {
        generation: u8,
        before: Fold,
        after: Fold,
        frontier: u64,
        upto: u64,
    },
}

impl Duplicate for Place {
    fn copy(&self, _alloc: Global) -> Result<Place, AllocError> {
        Ok(*self)
    }
}

impl Duplicate for Fold {
    fn copy(&self, _alloc: Global) -> Result<Fold, AllocError> {
        Ok(Fold {
            shapes: self.shapes.copy()?,
            places: self.places.copy()?,
        })
    }
}

impl Duplicate for Placement {
    fn copy(&self, alloc: Global) -> Result<Placement, AllocError> {
        Ok(match self {
            Placement::Settled { generation, fold } => Placement::Settled {
                generation: *generation,
                fold: fold.copy(alloc)?,
            },
            Placement::Moving {
                generation,
                before,
                after,
                frontier,
                upto,
            } => Placement::Moving {
                generation: *generation,
                before: before.copy(alloc)?,
                after: after.copy(alloc)?,
                frontier: *frontier,
                upto: *upto,
            },
        })
    }
}
