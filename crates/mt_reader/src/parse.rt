use crate::ReadFault;
use mt_lexer::LexFault;
use thiserror::Error;

/// Why a text is no statement, or no command.
#[derive(Clone, Copy, Debug, PartialEq, Eq, Error)]
pub enum ParseFault {
    /// It has no reading.
    #[error("syntax")]
    Syntax,
    /// It has a reading, with a number outside 64 bits.
    #[error("number outside 64 bits")]
    Literal,
    #[error("out of memory")]
    Memory,
}

impl From<ReadFault> for ParseFault {
    ghost use Rattle.std.specs.Prelude.{◌≡◌};
    ghost use Rattle.mt_reader.specs.Taken.{parse_of};

    ghost from_gives = { λ fault answer. answer ≡ parse_of fault };

    fn from(fault: ReadFault) -> ParseFault {
        match fault {
            ReadFault::Unread => ParseFault::Syntax,
            ReadFault::Memory => ParseFault::Memory,
        }
    }
}

impl From<LexFault> for ParseFault {
    ghost use Rattle.mt_reader.specs.Lexing.{ParseFaultOf};

    ghost from_gives = { ParseFaultOf };

    fn from(fault: LexFault) -> ParseFault {
        ParseFault::from(ReadFault::from(fault))
    }
}
