ghost use Rattle.std.specs.Prelude.{◌≡◌, ◌↔◌, length, IfOk, IfSome, IfNone, OnOk, OnSome, IsErrOf};

use mt_list::Duplicate;
use std::alloc::{AllocError, Global};
use std::cmp::Ordering;
use std::hash::{Hash, Hasher};
use std::marker::Model;
use thiserror::Error;

/// Why bytes make no text.
#[derive(Clone, Copy, Debug, PartialEq, Eq, Error)]
pub enum StrFault {
    #[error("not UTF-8")]
    NotUtf8,
    #[error("out of memory")]
    Memory,
}

impl From<AllocError> for StrFault {
    ghost use Rattle.std.specs.Prelude.{◌≡◌};
    ghost use Rattle.mt_value.specs.declared.text.StrFault.TheVariants.{Memory};

    ghost from_gives = { λ _ fault. fault ≡ Memory };

    fn from(_: AllocError) -> StrFault {
        StrFault::Memory
    }
}

/// A text, which contracts see as its UTF-8 bytes.
#[derive(Debug, Drop)]
pub struct Str {
    text: String,
}

impl Model for Str {
    ghost use Rattle.std.specs.Prelude.{ℕ, List};
    ghost use Rattle.std.specs.String.{string_bytes};

    ghost Value = { List ℕ };

    ghost view = { λ it. string_bytes it.text };
}

impl Str {
    ghost use Rattle.std.specs.Str.{IsUtf8};

    /// A text of these characters. `AllocError` is want of memory.
    pub fn from_str(alloc: Global, text: &str) -> Result<Str, AllocError>
        ensures { IfOk result (λ made. made ≡ text.now) }
    {
        Ok(Str {
            text: String::from_str(alloc, text)?,
        })
    }

    /// The text of these bytes: `NotUtf8` exactly where they are not UTF-8, `Memory` for want of memory.
    pub fn from_bytes(alloc: Global, bytes: &[u8]) -> Result<Str, StrFault>
        ensures text { IfOk result (λ text. text ≡ bytes.now) }
        ensures utf8 { OnOk result (IsUtf8 bytes.now) }
        ensures not_utf8 { IsErrOf result StrFault.NotUtf8 ↔ ¬ (IsUtf8 bytes.now) }
    {
        match str::from_utf8(bytes) {
            Ok(text) => Ok(Str::from_str(alloc, text)?),
            Err(_) => Err(StrFault::NotUtf8),
        }
    }

    /// The text of these bytes, with no memory taken: none exactly where they are not UTF-8.
    pub fn from_vec(bytes: Vec<u8>) -> Option<Str>
        ensures text { IfSome result (λ text. text ≡ bytes.items) }
        ensures utf8 { OnSome result (IsUtf8 bytes.items) }
        ensures not_utf8 { IfNone result (¬ (IsUtf8 bytes.items)) }
    {
        match String::from_utf8(bytes) {
            Ok(text) => Some(Str { text }),
            Err(_) => None,
        }
    }

    /// The characters.
    pub fn as_str(&self) -> &str
        ensures { result.now ≡ self.now }
    {
        self.text.as_str()
    }

    /// The length in bytes.
    pub fn len(&self) -> usize
        ensures { result ≡ length self.now }
    {
        self.text.len()
    }

    /// An equal text. `AllocError` is want of memory.
    pub fn copy(&self) -> Result<Str, AllocError>
        ensures { IfOk result (λ copied. copied ≡ self.now) }
    {
        Ok(Str {
            text: self.text.clone()?,
        })
    }
}

impl Duplicate for Str {
    fn copy(&self, _alloc: Global) -> Result<Str, AllocError> {
        Str::copy(self)
    }
}

impl PartialEq for Str {
    ghost use Rattle.std.specs.Prelude.{nat_eq};
    ghost use Rattle.std.specs.Cmp.Lexicographic.{pointwise};
    ghost use Rattle.std.proofs.lemmas.Cmp.{nat_list_eq_equiv};
    ghost use Rattle.std.specs.Cmp.{partial_equiv_from_equiv};

    ghost eq = { pointwise nat_eq };

    ghost laws = { partial_equiv_from_equiv nat_list_eq_equiv };

    fn eq(&self, other: &Str) -> bool {
        self.text == other.text
    }
}

impl Eq for Str {
    ghost use Rattle.std.proofs.lemmas.Cmp.{nat_list_eq_equiv};

    ghost laws = { nat_list_eq_equiv };
}

impl Hash for Str {
    ghost use Rattle.std.proofs.Common.{rules};
    ghost use Rattle.std.specs.Hash.{str};
    ghost use Rattle.std.specs.Cmp.Rules.{hashing};

    ghost hash_input = { str };

    ghost respects_eq = { Prim.search (hashing, rules) };

    fn hash<H: Hasher>(&self, state: &mut H) {
        self.as_str().hash(state);
    }
}

impl PartialOrd for Str {
    ghost use Rattle.std.specs.Ordering.{as_partial_cmp, nat_cmp};
    ghost use Rattle.std.specs.Cmp.Lexicographic.{slice_cmp, texts_po};

    ghost partial_cmp = { as_partial_cmp (slice_cmp nat_cmp) };

    ghost laws = { texts_po };

    fn partial_cmp(&self, other: &Str) -> Option<Ordering> {
        Some(self.cmp(other))
    }
}

impl Ord for Str {
    ghost use Rattle.std.specs.Prelude.{refl};
    ghost use Rattle.std.specs.Ordering.{nat_cmp};
    ghost use Rattle.std.specs.Cmp.Lexicographic.{slice_cmp, texts_ties};
    ghost use Rattle.std.proofs.lemmas.Cmp.{nat_list_cmp_total};

    ghost cmp = { slice_cmp nat_cmp };

    ghost total = { nat_list_cmp_total };

    ghost matches_partial_cmp = { λ a b. refl };

    ghost matches_eq = { texts_ties };

    fn cmp(&self, other: &Str) -> Ordering {
        self.text.cmp(&other.text)
    }
}
