ghost use Rattle.mt_model.specs.Said.{IsStatementSaid, IsCommandSaid};
ghost use Rattle.mt_private.specs.Serving.{ServesAs};

use crate::served::{is_schema_step, served_statement};
use mt_adminlang::parse_admin;
use mt_grammar::parse;
use mt_reader::ParseFault;
use mt_tree::{AdminCmd, SimpleStmt};
use std::alloc::{AllocError, Global};
use thiserror::Error;

/// Why a text says nothing that is served.
#[derive(Clone, Copy, Debug, PartialEq, Eq, Error)]
pub(crate) enum ServeFault {
    /// It has no reading.
    #[error("syntax")]
    Unread,
    /// It has a reading, with a number outside 64 bits.
    #[error("number outside 64 bits")]
    Outside,
    /// It has a reading that is not served so far.
    #[error("not served here")]
    Unserved,
    #[error("out of memory")]
    Memory,
}

impl From<ParseFault> for ServeFault {
    ghost use Rattle.std.specs.Prelude.{◌≡◌};
    ghost use Rattle.mt_private.specs.Serving.{fault_of};

    ghost from_gives = { λ fault answer. answer ≡ fault_of fault };

    fn from(fault: ParseFault) -> ServeFault {
        match fault {
            ParseFault::Syntax => ServeFault::Unread,
            ParseFault::Literal => ServeFault::Outside,
            ParseFault::Memory => ServeFault::Memory,
        }
    }
}

impl From<AllocError> for ServeFault {
    ghost use Rattle.std.specs.Prelude.{◌≡◌};
    ghost use Rattle.mt_private.specs.declared.said.ServeFault.TheVariants.{Memory};

    ghost from_gives = { λ _ fault. fault ≡ Memory };

    fn from(_: AllocError) -> ServeFault {
        ServeFault::Memory
    }
}

/// What a tenant's text says.
pub(crate) fn said_statement(alloc: Global, text: &str) -> Result<SimpleStmt, ServeFault>
    ensures { ServesAs (λ said. IsStatementSaid text.now said) result }
{
    let statement = parse(alloc, text)?;
    match served_statement(alloc, statement)? {
        Some(simple) => Ok(simple),
        None => Err(ServeFault::Unserved),
    }
}

/// What the administrator's text says: a schema step is served.
pub(crate) fn said_command(alloc: Global, text: &str) -> Result<AdminCmd, ServeFault>
    ensures { ServesAs (λ said. IsCommandSaid text.now said) result }
{
    let command = parse_admin(alloc, text)?;
    if is_schema_step(&command) {
        Ok(command)
    } else {
        Err(ServeFault::Unserved)
    }
}
