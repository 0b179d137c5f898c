ghost use Rattle.std.specs.Prelude.{◌≡◌};
ghost use Rattle.mt_schema.specs.Steps.{table_number};
ghost use Rattle.mt_model.specs.Tables.{column_place};

use mt_tree::{Column, Table};
use mt_value::Str;

/// The number of the table of that name.
pub(crate) fn table_number(tables: &[Table], name: &Str) -> Option<usize>
    ensures { result ≡ table_number tables.now name.now }
{
    tables.iter().position(|table| table.name == *name)
}

/// The place of the column of that name.
pub(crate) fn column_place(columns: &[Column], name: &Str) -> Option<usize>
    ensures { result ≡ column_place columns.now name.now }
{
    columns.iter().position(|column| column.name == *name)
}
