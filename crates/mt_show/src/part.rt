#![tactic(auto, unfolding(crate::specs::Spaced::spaced))]

ghost use Rattle.std.specs.Prelude.{◌≡◌, ◌∷◌, [], ◌++◌, List, map, OnOk};
ghost use Rattle.mt_lexer.specs.Tokens.{Lexeme, Word, Sign};
ghost use Rattle.mt_show.specs.Spaced.{spaced};
ghost use Rattle.mt_show.specs.Shown.{flag_tokens};
ghost use Rattle.mt_show.specs.Printing.{where_needed, before_others};
ghost use Rattle.mt_show.specs.Statements.{listed};

use crate::printer::Printer;
use mt_lexer::Symbol;
use std::alloc::AllocError;

/// A part of a statement, as a member of a list.
pub(crate) trait Part {
    ghost tokens: { Self → List Lexeme };

    /// Prints the part. `AllocError` is want of memory, here and wherever something is printed.
    fn print(&self, printer: &mut Printer) -> Result<(), AllocError>
        ensures { OnOk result (printer.new ≡ printer.old ++ spaced (tokens self.now)) };
}

/// Prints parts with commas between.
pub(crate) fn listed<T: Part>(printer: &mut Printer, parts: &[T]) -> Result<(), AllocError>
    ensures { OnOk result (printer.new ≡ printer.old ++ spaced (listed (map T.tokens parts.now))) }
{
    for (index, part) in parts.iter().enumerate() {
        symbol_between(printer, index, Symbol::Comma)?;
        part.print(printer)?;
    }
    Ok(())
}

/// Prints a symbol in front of each member of a list but the first.
pub(crate) fn symbol_between(
    printer: &mut Printer,
    index: usize,
    symbol: Symbol,
) -> Result<(), AllocError>
    ensures { OnOk result (printer.new ≡ printer.old ++ spaced (before_others index (Sign symbol))) }
{
    if index == 0 {
        return Ok(());
    }
    printer.symbol(symbol)
}

/// Prints a word in front of each member of a list but the first.
pub(crate) fn word_between(
    printer: &mut Printer,
    index: usize,
    word: &str,
) -> Result<(), AllocError>
    ensures { OnOk result (printer.new ≡ printer.old ++ spaced (before_others index (Word word.now))) }
{
    if index == 0 {
        return Ok(());
    }
    printer.word(word)
}

/// Prints a word, where the flag is set.
pub(crate) fn flag(printer: &mut Printer, is_set: bool, word: &str) -> Result<(), AllocError>
    ensures { OnOk result (printer.new ≡ printer.old ++ spaced (flag_tokens word.now is_set)) }
{
    if !is_set {
        return Ok(());
    }
    printer.word(word)
}

/// Prints a bracket, where it is needed.
pub(crate) fn bracket(printer: &mut Printer, needed: bool, symbol: Symbol) -> Result<(), AllocError>
    ensures { OnOk result (printer.new ≡ printer.old ++ spaced (where_needed needed (Sign symbol))) }
{
    if !needed {
        return Ok(());
    }
    printer.symbol(symbol)
}
