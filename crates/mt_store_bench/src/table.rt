ghost use Rattle.std.specs.Prelude.{◌≡◌, IfOk};
ghost use Rattle.mt_rowfile.specs.Layouts.{IsLayout};
ghost use Rattle.mt_store_bench.specs.Numbers.{numbers_layout};

use mt_codec::FieldKind;
use mt_list::List;
use mt_rowfile::{Head, Layout};
use std::alloc::{AllocError, Global};

/// The table that is put into and scanned, which is the first conventional one.
pub(crate) const TABLE: u32 = 16;

/// The tenants have the numbers from 1 to this one.
pub(crate) const TENANTS: u32 = 100;

/// The layout of the table: one integer. `AllocError` is want of memory.
pub(crate) fn layout(alloc: Global) -> Result<Layout, AllocError>
    ensures layout { IfOk result (λ layout. layout ≡ numbers_layout) }
    ensures sound { IfOk result (λ layout. IsLayout layout) }
{
    Ok(Layout {
        head: Head::Conventional,
        kinds: List::from_vec(Vec::from_slice(alloc, &[FieldKind::Int])?),
    })
}
