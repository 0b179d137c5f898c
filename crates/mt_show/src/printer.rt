ghost use Rattle.std.specs.Prelude.{◌≡◌, ℕ, List, [], ◌∷◌, ◌++◌, IfOk, OnOk};
ghost use Rattle.std.specs.List.{list_any};
ghost use Rattle.mt_lexer.specs.Tokens.{Lexeme, Word, Number, Quoted, Sign, is_upper, symbol_bytes};
ghost use Rattle.mt_lexer.specs.Reserved.{is_reserved_name};
ghost use Rattle.mt_show.specs.Spaced.{spaced};
ghost use Rattle.mt_show.specs.Text.{text_of};

use mt_lexer::{Symbol, has_capitals, is_reserved};
use mt_value::{Str, split_quote};
use std::alloc::{AllocError, Global};
use std::marker::Model;

/// Collects tokens as text. Contracts see the bytes so far: for each token a space and its text.
#[derive(Debug, Drop)]
pub(crate) struct Printer {
    text: String,
}

impl Model for Printer {
    ghost use Rattle.std.specs.Prelude.{List, ℕ};
    ghost use Rattle.std.specs.String.{string_bytes};

    ghost Value = { List ℕ };

    ghost view = { λ printer. string_bytes printer.text };
}

impl Printer {
    /// A printer of no tokens. It takes no memory, and later growth takes it from `alloc`.
    pub fn new(alloc: Global) -> Printer
        ensures { result ≡ [] }
    {
        Printer {
            text: String::new(alloc),
        }
    }

    /// Prints a word, in upper case where it is reserved. `AllocError` is want of memory, here and
    /// below; a part of the token may then stand at the end.
    pub fn word(&mut self, word: &str) -> Result<(), AllocError>
        ensures { OnOk result (self.new ≡ self.old ++ spaced (Word word.now ∷ [])) }
    {
        if !is_reserved_name(word) {
            return self.token(word);
        }
        let capitals = word.to_ascii_uppercase(*self.text.allocator())?;
        self.token(capitals.as_str())
    }

    /// Prints a number in decimal.
    pub fn number(&mut self, number: u64) -> Result<(), AllocError>
        ensures { OnOk result (self.new ≡ self.old ++ spaced (Number number ∷ [])) }
    {
        let mut digits = itoa::Buffer::new();
        self.token(digits.format(number))
    }

    /// Prints a text in single quotes, with each quote in it twice.
    #[tactic(auto, unfolding(crate::specs::Spaced::spaced))]
    pub fn quoted(&mut self, text: &Str) -> Result<(), AllocError>
        ensures { OnOk result (self.new ≡ self.old ++ spaced (Quoted text.now ∷ [])) }
    {
        self.text.push_str(" '")?;
        let mut rest = text.as_str();
        while let Some((front, behind)) = split_quote(rest) {
            self.text.push_str(front)?;
            self.text.push_str("''")?;
            rest = behind;
        }
        self.text.push_str(rest)?;
        self.text.push_str("'")
    }

    /// Prints a symbol.
    #[tactic(auto, unfolding(crate::specs::Spaced::spaced))]
    pub fn symbol(&mut self, symbol: Symbol) -> Result<(), AllocError>
        ensures { OnOk result (self.new ≡ self.old ++ spaced (Sign symbol ∷ [])) }
    {
        self.token(symbol_text(symbol))
    }

    /// Adds a space and the text of a token.
    fn token(&mut self, text: &str) -> Result<(), AllocError>
        ensures { OnOk result (self.new ≡ self.old ++ 32 ∷ text.now) }
    {
        self.text.push_str(" ")?;
        self.text.push_str(text)
    }

    /// The text, without the space in front. `AllocError` is want of memory.
    pub fn finish(self) -> Result<Str, AllocError>
        ensures { (lexemes : List Lexeme) → self ≡ spaced lexemes → IfOk result (λ text. text ≡ text_of lexemes) }
    {
        Str::from_str(*self.text.allocator(), without_space(self.text.as_str()))
    }
}

/// The text without a space in front.
fn without_space(text: &str) -> &str
    ensures space { (rest : List ℕ) → text.now ≡ 32 ∷ rest → result.now ≡ rest }
    ensures empty { text.now ≡ [] → result.now ≡ [] }
{
    match text.strip_prefix(' ') {
        Some(behind) => behind,
        None => text,
    }
}

/// How a symbol is written.
#[tactic(auto, unfolding(mt_lexer::specs::Tokens::symbol_bytes))]
fn symbol_text(symbol: Symbol) -> &'static str
    ensures { result.now ≡ symbol_bytes symbol }
{
    match symbol {
        Symbol::Open => "(",
        Symbol::Close => ")",
        Symbol::Comma => ",",
        Symbol::Dot => ".",
        Symbol::Star => "*",
        Symbol::Plus => "+",
        Symbol::Minus => "-",
        Symbol::Equal => "=",
        Symbol::NotEqual => "<>",
        Symbol::Less => "<",
        Symbol::LessEqual => "<=",
        Symbol::Greater => ">",
        Symbol::GreaterEqual => ">=",
        Symbol::Semicolon => ";",
    }
}

/// Whether this is a reserved word in lower case, as words of a tree are kept.
fn is_reserved_name(word: &str) -> bool
    ensures { result ≡ is_reserved_name word.now }
{
    is_reserved(word.as_bytes()) && !has_capitals(word.as_bytes())
}
