use mt_lexer::LexFault;
use std::alloc::AllocError;
use thiserror::Error;

/// Why a reader gives no tree.
#[derive(Clone, Copy, Debug, PartialEq, Eq, Error)]
pub enum ReadFault {
    /// What is left does not begin with the form.
    #[error("not of this form")]
    Unread,
    #[error("out of memory")]
    Memory,
}

impl From<AllocError> for ReadFault {
    ghost use Rattle.std.specs.Prelude.{◌≡◌};
    ghost use Rattle.mt_reader.specs.declared.fault.ReadFault.TheVariants.{Memory};

    ghost from_gives = { λ _ fault. fault ≡ Memory };

    fn from(_: AllocError) -> ReadFault {
        ReadFault::Memory
    }
}

impl From<LexFault> for ReadFault {
    ghost use Rattle.mt_reader.specs.Lexing.{FaultOf};

    ghost from_gives = { FaultOf };

    fn from(fault: LexFault) -> ReadFault {
        match fault {
            LexFault::Bad { .. } => ReadFault::Unread,
            LexFault::Memory => ReadFault::Memory,
        }
    }
}
