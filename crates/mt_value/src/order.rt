ghost use Rattle.std.specs.Prelude.{◌≡◌, length};
ghost use Rattle.mt_value.specs.Order.{value_order, row_order, compare_of, AreComparable, is_null, holds, truth_of};
ghost use Rattle.mt_value.specs.Laws.{swapped, negated};
ghost use Rattle.mt_value.specs.Logic.{not_of};
ghost use Rattle.std.specs.Prelude.{List};
ghost use Rattle.std.specs.Cmp.{IsTotalOrder};
ghost use Rattle.std.specs.declared.cmp.Ordering.TheVariants.{Equal};

use crate::{Cmp, Row, Truth, Value};
use std::cmp::Ordering;

/// The order in which values are printed: Null, then integers by size, then texts by bytes.
pub fn value_order(a: &Value, b: &Value) -> Ordering
    ensures { result ≡ value_order a.now b.now }
{
    a.cmp(b)
}

/// The order of rows: the first values that differ decide.
pub fn row_order(a: &Row, b: &Row) -> Ordering
    requires { length a.now ≡ length b.now }
    ensures { result ≡ row_order a.now b.now }
{
    compare_rows(a, b)
}

/// The order of rows of any lengths: where one is the start of the other, it is the lesser.
pub(crate) fn compare_rows(a: &Row, b: &Row) -> Ordering
    ensures { result ≡ row_order a.now b.now }
{
    a.as_slice().cmp(b.as_slice())
}

/// A comparison of two values (SQL:1999, 8.2): Unknown where one of them is Null.
pub fn compare(op: Cmp, a: &Value, b: &Value) -> Truth
    requires { AreComparable a.now b.now }
    ensures { result ≡ compare_of op a.now b.now }
{
    compare_any(op, a, b)
}

/// The same of any two values: of an integer and a text it is that of their order.
pub fn compare_any(op: Cmp, a: &Value, b: &Value) -> Truth
    ensures { result ≡ compare_of op a.now b.now }
{
    if is_null(a) || is_null(b) {
        return Truth::Unknown;
    }
    truth_of(holds(op, value_order(a, b)))
}

/// Both orders are total, what compares Equal is equal, and comparisons follow the order: exchanged
/// operands compare the other way round, and NOT of a comparison is the opposite one. It does nothing.
pub fn orders_are_total()
    ensures values_total { IsTotalOrder value_order }
    ensures values_exact { (a b : Value) → value_order a b ≡ Equal → a ≡ b }
    ensures rows_total { IsTotalOrder row_order }
    ensures rows_exact { (a b : List Value) → row_order a b ≡ Equal → a ≡ b }
    ensures swapped { (op : Cmp) (a b : Value) → compare_of (swapped op) b a ≡ compare_of op a b }
    ensures negated { (op : Cmp) (a b : Value) → compare_of (negated op) a b ≡ not_of (compare_of op a b) }
{}

fn is_null(value: &Value) -> bool
    ensures { result ≡ is_null value.now }
{
    matches!(value, Value::Null)
}

/// Whether a comparison holds of values in this order.
fn holds(op: Cmp, order: Ordering) -> bool
    ensures { result ≡ holds op order }
{
    match op {
        Cmp::Eq => order.is_eq(),
        Cmp::Ne => order.is_ne(),
        Cmp::Lt => order.is_lt(),
        Cmp::Le => order.is_le(),
        Cmp::Gt => order.is_gt(),
        Cmp::Ge => order.is_ge(),
    }
}

fn truth_of(holds: bool) -> Truth
    ensures { result ≡ truth_of holds }
{
    if holds { Truth::True } else { Truth::False }
}
