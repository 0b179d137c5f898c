ghost use Rattle.std.specs.Prelude.{◌≡◌, ℕ, List, IfOk};
ghost use Rattle.mt_reader.specs.Reading.{ReadsAs};
ghost use Rattle.mt_show.specs.Statements.{statement_text};
ghost use Rattle.mt_grammar.specs.Statement.{SpellsStmt};

use crate::statement::print;
use mt_tree::Stmt;
use mt_value::Str;
use std::alloc::{AllocError, Global};

/// Prints a statement in its one spelling: its tokens with one space between, reserved words in upper
/// case, brackets only where the tree needs them. What is printed of a statement that has a reading
/// reads as the same tree. `AllocError` is want of memory.
pub fn show(alloc: Global, statement: &Stmt) -> Result<Str, AllocError>
    ensures text { IfOk result (λ shown. shown ≡ statement_text statement.now) }
    ensures reads { IfOk result (λ shown. (text : List ℕ) → ReadsAs SpellsStmt text statement.now → ReadsAs SpellsStmt shown statement.now) }
{
    print(alloc, statement)
}
