ghost use Rattle.std.specs.Prelude.{◌≡◌, ◌∷◌, [], map, drop, is_some, option_map, IfOk, IfSome, IfNone};
ghost use Rattle.std.specs.List.{AllPass};
ghost use Rattle.std.specs.Str.{IsUtf8};
ghost use Rattle.std.specs.Str.Parse.{digits_value};
ghost use Rattle.mt_lexer.specs.Tokens.{Word, Sign, is_digit, lower};
ghost use Rattle.mt_reader.specs.Pieces.{AreTokens, IsPiece, lexeme_at, lexeme_of};
ghost use Rattle.mt_reader.specs.Descent.{after, name_of, number_of, is_end, end_of, begins_with_name, begins_with_word, first_symbol};
ghost use Rattle.mt_reader.specs.Taken.{Skips, TakesAny, TakesExactly};

use crate::ReadFault;
use crate::piece::{Piece, piece_of};
use mt_lexer::{Symbol, Token, is_reserved};
use mt_value::Str;
use std::alloc::Global;
use std::marker::Model;

/// A reader of the tokens of a text, from left to right. Contracts see what is left as lexemes.
#[derive(Drop)]
pub struct Reader<'t> {
    text: &'t str,
    tokens: &'t [Token],
}

impl<'t> Model for Reader<'t> {
    ghost use Rattle.std.specs.Prelude.{List, map};
    ghost use Rattle.mt_lexer.specs.Tokens.{Lexeme};
    ghost use Rattle.mt_reader.specs.Pieces.{AreTokens, lexeme_at};

    ghost Value = { List Lexeme };

    ghost view = { λ it. map (lexeme_at it.text.now) it.tokens.now };

    ghost invariant = { λ it. AreTokens it.text.now it.tokens.now };
}

impl<'t> Reader<'t> {
    /// Before all tokens of a text.
    pub fn new(text: &'t str, tokens: &'t [Token]) -> Reader<'t>
        requires { AreTokens text.now tokens.now }
        ensures { result ≡ map (lexeme_at text.now) tokens.now }
    {
        Reader { text, tokens }
    }

    /// The first piece that is left.
    pub(crate) fn peek(&self) -> Option<Piece<'t>>
        ensures is_piece { IfSome result IsPiece }
        ensures first { IfSome result (λ piece. self.now ≡ lexeme_of piece ∷ drop 1 self.now) }
        ensures none { IfNone result (self.now ≡ []) }
    {
        let token = self.tokens.first()?;
        Some(piece_of(self.text, *token))
    }

    /// Leaves the first piece behind, if there is one.
    pub fn skip(&mut self)
        ensures { self.new ≡ drop 1 self.old }
    {
        if let Some((_, rest)) = self.tokens.split_first() {
            self.tokens = rest;
        }
    }

    /// Takes this word, in any ASCII case, if it is the first piece.
    pub fn takes_word(&mut self, word: &[u8]) -> bool
        ensures { Skips result self.old self.new (after (Word (map lower word.now)) self.old) }
    {
        let Some(first) = self.peek() else {
            return false;
        };
        if !first.is_word(word) {
            return false;
        }
        self.skip();
        true
    }

    /// Takes this symbol, if it is the first piece.
    pub fn takes_symbol(&mut self, symbol: Symbol) -> bool
        ensures { Skips result self.old self.new (after (Sign symbol) self.old) }
    {
        let Some(first) = self.peek() else {
            return false;
        };
        if !first.is_symbol(symbol) {
            return false;
        }
        self.skip();
        true
    }

    /// Takes this word, in any ASCII case.
    pub fn word(&mut self, word: &[u8]) -> Result<(), ReadFault>
        ensures { TakesExactly result (λ _. self.new) (after (Word (map lower word.now)) self.old) }
    {
        if self.takes_word(word) {
            Ok(())
        } else {
            Err(ReadFault::Unread)
        }
    }

    /// Takes this symbol.
    pub fn symbol(&mut self, symbol: Symbol) -> Result<(), ReadFault>
        ensures { TakesExactly result (λ _. self.new) (after (Sign symbol) self.old) }
    {
        if self.takes_symbol(symbol) {
            Ok(())
        } else {
            Err(ReadFault::Unread)
        }
    }

    /// Whether no token is left.
    pub fn is_at_end(&self) -> bool
        ensures { result ≡ is_end self.now }
    {
        self.tokens.is_empty()
    }

    /// Takes a semicolon, if there is one, and wants nothing behind it.
    pub fn end(&mut self) -> Result<(), ReadFault>
        ensures { TakesExactly result (λ _. tt) (end_of self.old) }
    {
        let _ = self.takes_symbol(Symbol::Semicolon);
        if self.is_at_end() {
            Ok(())
        } else {
            Err(ReadFault::Unread)
        }
    }

    /// Whether the first piece is a word that is not reserved.
    pub fn begins_with_name(&self) -> bool
        ensures { result ≡ begins_with_name self.now }
    {
        match self.peek() {
            Some(Piece::Word(word)) => !is_reserved(word),
            Some(_) | None => false,
        }
    }

    /// Whether the first piece is a word.
    pub fn begins_with_word(&self) -> bool
        ensures { result ≡ begins_with_word self.now }
    {
        matches!(self.peek(), Some(Piece::Word(_)))
    }

    /// Whether this word, in any ASCII case, is the first piece.
    pub fn is_at(&self, word: &[u8]) -> bool
        ensures { result ≡ is_some (after (Word (map lower word.now)) self.now) }
    {
        match self.peek() {
            Some(first) => first.is_word(word),
            None => false,
        }
    }

    /// Whether this symbol is the first piece.
    pub fn is_at_symbol(&self, symbol: Symbol) -> bool
        ensures { result ≡ is_some (after (Sign symbol) self.now) }
    {
        match self.peek() {
            Some(first) => first.is_symbol(symbol),
            None => false,
        }
    }

    /// The symbol that comes first, if one does.
    pub fn first_symbol(&self) -> Option<Symbol>
        ensures { result ≡ first_symbol self.now }
    {
        match self.peek() {
            Some(Piece::Symbol(symbol)) => Some(symbol),
            Some(_) | None => None,
        }
    }

    /// Takes a name, and gives it in lower case.
    pub fn name(&mut self, alloc: Global) -> Result<Str, ReadFault>
        ensures { TakesExactly result (λ name. (name, self.new)) (name_of self.old) }
    {
        let Some(first) = self.peek() else {
            return Err(ReadFault::Unread);
        };
        let Some(word) = first.word() else {
            return Err(ReadFault::Unread);
        };
        if is_reserved(word) {
            return Err(ReadFault::Unread);
        }
        self.skip();
        let name = word.to_ascii_lowercase(alloc)?;
        Ok(text_of(name))
    }

    /// Takes a number, if it is the first piece, and gives its digits.
    pub fn takes_number(&mut self) -> Option<&'t [u8]>
        ensures taken { TakesAny (option_map (λ digits. digits_value 10 digits.now) result) self.old self.new (number_of self.old) }
        ensures digits { IfSome result (λ digits. AllPass is_digit digits.now) }
    {
        let Some(first) = self.peek() else {
            return None;
        };
        let Some(digits) = first.digits() else {
            return None;
        };
        self.skip();
        Some(digits)
    }

    /// Takes a number, and gives its digits.
    pub fn number(&mut self) -> Result<&'t [u8], ReadFault>
        ensures taken { TakesExactly result (λ digits. (digits_value 10 digits.now, self.new)) (number_of self.old) }
        ensures digits { IfOk result (λ digits. AllPass is_digit digits.now) }
    {
        let Some(digits) = self.takes_number() else {
            return Err(ReadFault::Unread);
        };
        Ok(digits)
    }
}

/// The text of these bytes.
pub fn text_of(bytes: Vec<u8>) -> Str
    requires { IsUtf8 bytes.items }
    ensures { result ≡ bytes.items }
{
    match Str::from_vec(bytes) {
        Some(text) => text,
        None => unreachable!(),
    }
}
