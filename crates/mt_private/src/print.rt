ghost use Rattle.std.specs.Prelude.{◌≡◌, ◌++◌, map, flat_map, OnOk};
ghost use Rattle.std.specs.List.{join_with_byte};
ghost use Rattle.mt_value.specs.Printed.{value_text};
ghost use Rattle.mt_model.specs.Answer.{row_line};

use mt_tree::ReplyText;
use mt_value::{Row, Str, Value};
use std::alloc::AllocError;

/// Adds names with bars between.
pub(crate) fn push_names(text: &mut ReplyText, names: &[Str]) -> Result<(), AllocError>
    ensures { OnOk result (text.new ≡ text.old ++ join_with_byte 124 names.now) }
{
    let Some((first, others)) = names.split_first() else {
        return Ok(());
    };
    text.push_bytes(first.as_str().as_bytes())?;
    for name in others {
        text.push_bytes(b"|")?;
        text.push_bytes(name.as_str().as_bytes())?;
    }
    Ok(())
}

/// Adds a line for each row.
pub(crate) fn push_rows(text: &mut ReplyText, rows: &[Row]) -> Result<(), AllocError>
    ensures { OnOk result (text.new ≡ text.old ++ flat_map row_line rows.now) }
{
    for row in rows {
        push_values(text, row.as_slice())?;
        text.push_bytes(b"\n")?;
    }
    Ok(())
}

/// Adds values with bars between.
fn push_values(text: &mut ReplyText, values: &[Value]) -> Result<(), AllocError>
    ensures { OnOk result (text.new ≡ text.old ++ join_with_byte 124 (map value_text values.now)) }
{
    let Some((first, others)) = values.split_first() else {
        return Ok(());
    };
    text.push_value(first)?;
    for value in others {
        text.push_bytes(b"|")?;
        text.push_value(value)?;
    }
    Ok(())
}
