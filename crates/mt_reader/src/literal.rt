ghost use Rattle.std.specs.Prelude.{◌≡◌, pos, neg_ℤ, IfOk, IsUtf8};
ghost use Rattle.std.specs.List.{AllPass};
ghost use Rattle.std.specs.Str.Parse.{digits_value};
ghost use Rattle.mt_lexer.specs.Tokens.{is_digit};
ghost use Rattle.mt_reader.specs.Pieces.{undoubled};
ghost use Rattle.mt_reader.specs.Literals.{IsLiteralInside};
ghost use Rattle.mt_reader.specs.Descent.{literal_of};
ghost use Rattle.mt_reader.specs.Taken.{Keeps, TakesInside};

use crate::ReadFault;
use crate::digits::{integer_of, negative_of};
use crate::piece::{Piece, undoubled};
use crate::production::Production;
use crate::reader::{Reader, text_of};
use mt_lexer::{Symbol, is_same_word};
use mt_tree::Literal;
use std::alloc::{AllocError, Global};

/// A literal, as an item of a list.
pub enum LiteralForm {}

impl Production for LiteralForm {
    ghost use Rattle.mt_reader.specs.Descent.{literal_of};
    ghost use Rattle.mt_reader.specs.Literals.{IsLiteralInside};

    type Tree = Literal;

    ghost read = { literal_of };

    ghost is_inside = { IsLiteralInside };

    fn take(alloc: Global, reader: &mut Reader<'_>) -> Result<Option<Literal>, ReadFault> {
        literal(alloc, reader)
    }
}

/// Takes a literal, by its first token.
fn literal(alloc: Global, reader: &mut Reader<'_>) -> Result<Option<Literal>, ReadFault>
    ensures { TakesInside IsLiteralInside result reader.new (literal_of reader.old) }
{
    match reader.peek() {
        Some(Piece::Word(word)) => {
            if !is_same_word(word, b"null") {
                return Err(ReadFault::Unread);
            }
            reader.skip();
            Ok(Some(Literal::Null))
        }
        Some(Piece::Number(digits)) => {
            reader.skip();
            Ok(integer(digits))
        }
        Some(Piece::Text(bytes)) => {
            reader.skip();
            Ok(Some(literal_text(alloc, bytes)?))
        }
        Some(Piece::Symbol(symbol)) => {
            if symbol != Symbol::Minus {
                return Err(ReadFault::Unread);
            }
            reader.skip();
            let digits = reader.number()?;
            Ok(negative(digits))
        }
        None => Err(ReadFault::Unread),
    }
}

/// The integer that digits spell.
fn integer(digits: &[u8]) -> Option<Literal>
    requires { AllPass is_digit digits.now }
    ensures { Keeps IsLiteralInside result (Literal.Int (pos (digits_value 10 digits.now))) }
{
    Some(Literal::Int(integer_of(digits)?))
}

/// The integer that a minus and digits spell.
fn negative(digits: &[u8]) -> Option<Literal>
    requires { AllPass is_digit digits.now }
    ensures { Keeps IsLiteralInside result (Literal.Int (neg_ℤ (pos (digits_value 10 digits.now)))) }
{
    Some(Literal::Int(negative_of(digits)?))
}

/// The text between quotes.
fn literal_text(alloc: Global, bytes: &[u8]) -> Result<Literal, AllocError>
    requires { IsUtf8 (undoubled bytes.now) }
    ensures { IfOk result (λ literal. literal ≡ Literal.Text (undoubled bytes.now)) }
{
    let text = undoubled(alloc, bytes)?;
    Ok(Literal::Text(text_of(text)))
}
