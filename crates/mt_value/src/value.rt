use crate::Str;
use mt_list::{Duplicate, List};
use std::alloc::{AllocError, Global};

/// A value of SQL. The variants stand in the order in which values are printed.
#[derive(Debug, Drop, PartialEq, Eq, PartialOrd, Ord, Hash)]
pub enum Value {
    Null,
    Int(i64),
    Text(Str),
}

impl Duplicate for Value {
    fn copy(&self, _alloc: Global) -> Result<Value, AllocError> {
        match self {
            Value::Null => Ok(Value::Null),
            Value::Int(number) => Ok(Value::Int(*number)),
            Value::Text(text) => Ok(Value::Text(text.copy()?)),
        }
    }
}

/// The values of one row, in the order of the columns.
pub type Row = List<Value>;

/// Rows, in order.
pub type Rows = List<Row>;
