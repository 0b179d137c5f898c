//! Members of the catalogue's lists by their numbers.
ghost use Rattle.std.specs.Prelude.{◌≡◌, slice_get, option_copied};
ghost use Rattle.mt_catalog.specs.State as state;

use mt_catalog::Extension;
use mt_tree::{Column, Table};

/// The member at a number, if there is one.
pub(crate) fn member<T>(members: &[T], number: usize) -> Option<&T>
    ensures { option_copied result ≡ slice_get members.now number }
{
    if number < members.len() {
        Some(&members[number])
    } else {
        None
    }
}

/// The columns of a base table; none where it is not there.
pub(crate) fn base_columns(bases: &[Table], number: usize) -> &[Column]
    ensures { result.now ≡ state.base_columns (slice_get bases.now number) }
{
    match member(bases, number) {
        None => &[],
        Some(base) => base.columns.as_slice(),
    }
}

/// The columns of an extension; none where it is not there.
pub(crate) fn extension_columns(extensions: &[Extension], number: usize) -> &[Column]
    ensures { result.now ≡ state.extension_columns (slice_get extensions.now number) }
{
    match member(extensions, number) {
        None => &[],
        Some(extension) => extension.columns.as_slice(),
    }
}
