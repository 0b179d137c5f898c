ghost use Rattle.std.specs.Prelude.{◌≡◌, IfOk, IsPermutation};
ghost use Rattle.std.specs.List.Sorted.{IsSortedBy};
ghost use Rattle.mt_value.specs.Sorted.{in_row_order, row_before};

use crate::Rows;
use crate::order::compare_rows;
use mt_list::List;
use std::alloc::AllocError;

/// The rows in row order. `AllocError` is want of memory.
pub fn sort_rows(rows: Rows) -> Result<Rows, AllocError>
    ensures value { IfOk result (λ sorted. sorted ≡ in_row_order rows) }
    ensures permutation { IfOk result (λ sorted. IsPermutation rows sorted) }
    ensures ascending { IfOk result (λ sorted. IsSortedBy row_before sorted) }
{
    let mut members = rows.into_vec();
    members.sort_by(compare_rows)?;
    Ok(List::from_vec(members))
}
