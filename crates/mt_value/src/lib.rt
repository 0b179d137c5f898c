//! Values, their order and three-valued logic, as SQL:1999 has them: a comparison with NULL is
//! Unknown, NOT of Unknown is Unknown, AND is the least and OR the greatest in the order False,
//! Unknown, True. It promises that a text is UTF-8, and that each function is its definition.
#![tactic(auto)]

mod order;
mod quotes;
mod sort;
mod text;
mod truth;
mod value;

pub use order::{compare, compare_any, orders_are_total, row_order, value_order};
pub use quotes::split_quote;
pub use sort::sort_rows;
pub use text::{Str, StrFault};
pub use truth::{Cmp, Truth, and, logic_is_symmetric, not, or};
pub use value::{Row, Rows, Value};

#[cfg(test)]
mod tests;
