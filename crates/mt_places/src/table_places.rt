ghost use Rattle.std.specs.Prelude.{◌≡◌, ◌<◌, ◌≤◌, ◌^◌, length, drop, slice_get, OnErr, OnOk, ◌∷◌, []};
ghost use Rattle.mt_places.specs.Held.{extended, noted, offered, shortened, trimmed, unnamed};

use std::alloc::{AllocError, Global};
use std::marker::Model;

/// What is known of a table: whether a change names it, how many free slots are looked for, and
/// positions of some, of which those before `next` were taken.
#[derive(Debug, Drop)]
pub(crate) struct TablePlaces {
    named: bool,
    wanted: usize,
    positions: Vec<u64>,
    next: usize,
}

impl Model for TablePlaces {
    ghost use Rattle.std.specs.Prelude.{◌≤◌, drop, length};
    ghost use Rattle.mt_places.specs.Held.{TableState, table_code};

    ghost Value = { TableState };

    ghost coded = { table_code };

    ghost view = { λ it. record { named = it.named; wanted = it.wanted; free = drop it.next it.positions.items } };

    ghost invariant = { λ it. it.next ≤ length it.positions.items };
}

impl TablePlaces {
    /// A table that no change names. It takes no memory, and growth takes it from `alloc`.
    pub fn new(alloc: Global) -> TablePlaces
        ensures { result ≡ unnamed }
    {
        TablePlaces {
            named: false,
            wanted: 0,
            positions: Vec::new(alloc),
            next: 0,
        }
    }

    /// Whether a change names the table.
    pub fn is_named(&self) -> bool
        ensures { result ≡ self.now.named }
    {
        self.named
    }

    /// Takes note of a change, which puts a slot or does not.
    pub fn note(&mut self, puts: bool)
        requires { self.old.wanted < 2 ^ 32 }
        ensures { self.new ≡ noted puts self.old }
    {
        self.named = true;
        if puts {
            self.wanted += 1;
        }
    }

    /// Keeps no more free positions than are looked for.
    pub fn trim(&mut self)
        ensures { self.new ≡ trimmed self.old }
    {
        if self.positions.len() - self.next > self.wanted {
            self.positions.truncate(self.next + self.wanted);
        }
    }

    /// Adds a free position, if one more is looked for. `AllocError` is want of memory.
    pub fn offer(&mut self, position: u64) -> Result<(), AllocError>
        requires { length self.old.free ≤ self.old.wanted }
        ensures { OnOk result (self.new ≡ offered (position ∷ []) self.old) }
    {
        if self.positions.len() - self.next < self.wanted {
            self.positions.push(position)?;
        }
        Ok(())
    }

    /// Adds free positions. `AllocError` is want of memory, and leaves the table as it was.
    pub fn extend(&mut self, positions: &[u64]) -> Result<(), AllocError>
        ensures ok { OnOk result (self.new ≡ extended positions.now self.old) }
        ensures err { OnErr result (self.new ≡ self.old) }
    {
        self.positions.extend_from_slice(positions)
    }

    /// Takes the first free position; none where there is none. It takes no memory.
    pub fn take(&mut self) -> Option<u64>
        ensures first { result ≡ slice_get self.old.free 0 }
        ensures rest { self.new ≡ shortened self.old }
    {
        if self.next == self.positions.len() {
            return None;
        }
        let position = self.positions[self.next];
        self.next += 1;
        Some(position)
    }
}
