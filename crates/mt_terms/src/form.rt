use crate::leaf::atom;
use crate::logic::condition;
use crate::name::column;
use crate::sum::expression;
use mt_reader::{Production, ReadFault, Reader};
use mt_tree::{Atom, ColName, Cond, Expr};
use std::alloc::Global;

/// A column, as an item of a list.
pub enum ColumnForm {}

impl Production for ColumnForm {
    ghost use Rattle.mt_terms.specs.Descent.{column_of};

    type Tree = ColName;

    ghost read = { column_of };

    ghost is_inside = { λ _. Unit {0} };

    fn take(alloc: Global, reader: &mut Reader<'_>) -> Result<Option<ColName>, ReadFault> {
        Ok(Some(column(alloc, reader)?))
    }
}

/// An atom, as an item of a list.
pub(crate) enum AtomForm {}

impl Production for AtomForm {
    ghost use Rattle.mt_terms.specs.Descent.{atom_of};
    ghost use Rattle.mt_terms.specs.Inside.{IsAtomInside};

    type Tree = Atom;

    ghost read = { atom_of };

    ghost is_inside = { IsAtomInside };

    fn take(alloc: Global, reader: &mut Reader<'_>) -> Result<Option<Atom>, ReadFault> {
        atom(alloc, reader)
    }
}

/// An expression, as an item of a list.
pub enum ExpressionForm {}

impl Production for ExpressionForm {
    ghost use Rattle.mt_terms.specs.Descent.{expr_of};
    ghost use Rattle.mt_terms.specs.Inside.{IsExprInside};

    type Tree = Expr;

    ghost read = { expr_of };

    ghost is_inside = { IsExprInside };

    fn take(alloc: Global, reader: &mut Reader<'_>) -> Result<Option<Expr>, ReadFault> {
        expression(alloc, reader)
    }
}

/// A condition, as what stands behind WHERE, ON or HAVING.
pub enum ConditionForm {}

impl Production for ConditionForm {
    ghost use Rattle.mt_terms.specs.Descent.{cond_of};
    ghost use Rattle.mt_terms.specs.Inside.{IsCondInside};

    type Tree = Cond;

    ghost read = { cond_of };

    ghost is_inside = { IsCondInside };

    fn take(alloc: Global, reader: &mut Reader<'_>) -> Result<Option<Cond>, ReadFault> {
        condition(alloc, reader)
    }
}
