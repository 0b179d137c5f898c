ghost use Rattle.std.specs.Prelude.{◌≡◌, [], ◌∷◌, ◌++◌, IsTrue, ◌↔◌, OnOk, OnErr, Contains};

use std::alloc::{AllocError, Global};
use std::marker::Model;

/// The calls on a machine or a source, of which each kind is counted for itself.
#[derive(Clone, Copy, Debug, PartialEq, Eq)]
pub enum CallKind {
    Read,
    Write,
    Sync,
    Emit,
    Take,
}

/// The calls that are to fail: pairs of a kind and an ordinal, the first call of a kind being 1.
#[derive(Debug, Drop)]
pub struct FailList {
    named: Vec<(CallKind, u64)>,
}

impl Model for FailList {
    ghost use Rattle.std.specs.Prelude.{List, ℕ};
    ghost use Rattle.mt_machine.specs.declared.fails.CallKind.{CallKind};

    ghost Value = { List (CallKind × ℕ) };

    ghost view = { λ list. list.named.items };
}

impl FailList {
    /// The list that names no call. It takes no memory.
    pub fn new(alloc: Global) -> FailList
        ensures { result ≡ [] }
    {
        FailList {
            named: Vec::new(alloc),
        }
    }

    /// Names one more call. `AllocError` is want of memory, and leaves the list as it was.
    pub fn push(&mut self, kind: CallKind, nth: u64) -> Result<(), AllocError>
        ensures ok { OnOk result (self.new ≡ self.old ++ (kind, nth) ∷ []) }
        ensures err { OnErr result (self.new ≡ self.old) }
    {
        self.named.push((kind, nth))?;
        Ok(())
    }

    /// Whether the `nth` call of this kind is to fail.
    pub fn names(&self, kind: CallKind, nth: u64) -> bool
        ensures { IsTrue result ↔ Contains self.now (kind, nth) }
    {
        self.named.contains(&(kind, nth))
    }
}
