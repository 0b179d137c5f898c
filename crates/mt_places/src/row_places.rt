ghost use Rattle.std.specs.Prelude.{◌≡◌, IfOk, OnOk, filter_map};
ghost use Rattle.std.specs.FinMap as finite;
ghost use Rattle.mt_places.specs.Held.{asking, asking_one, placing};
ghost use Rattle.mt_places.specs.Named.{row_key};

use crate::named::row_key;
use mt_physplan::{Change, Key};
use std::alloc::{AllocError, Global};
use std::collections::BTreeMap;
use std::marker::Model;

/// Where each row stands that is asked for, if anywhere, by its key.
#[derive(Debug, Drop)]
pub(crate) struct RowPlaces {
    places: BTreeMap<Key, Option<u64>>,
}

impl Model for RowPlaces {
    ghost use Rattle.std.specs.Prelude.{ℕ, Option};
    ghost use Rattle.std.specs.Coded.{coded_ℕ, coded_option};
    ghost use Rattle.std.specs.FinMap as finite;
    ghost use Rattle.mt_physplan.specs.Keys.{coded_key, key_cmp};

    ghost Value = { finite.FinMap key_cmp (Option ℕ) };

    ghost coded = { finite.code coded_key (coded_option coded_ℕ) };

    ghost view = { λ it. finite.from_entries it.places.entries };
}

impl RowPlaces {
    /// No key is asked for. It takes no memory, and growth takes it from `alloc`.
    pub fn new(alloc: Global) -> RowPlaces
        ensures { result ≡ finite.empty }
    {
        RowPlaces {
            places: BTreeMap::new(alloc),
        }
    }

    /// Asks for the rows that the changes name. `AllocError` is want of memory.
    pub fn asked(alloc: Global, changes: &[Change]) -> Result<RowPlaces, AllocError>
        ensures { IfOk result (λ rows. rows ≡ asking (filter_map row_key changes.now) finite.empty) }
    {
        let mut rows = RowPlaces::new(alloc);
        for change in changes {
            rows.ask(row_key(change))?;
        }
        Ok(rows)
    }

    /// Asks for a row, if there is one. `AllocError` is want of memory.
    fn ask(&mut self, key: Option<Key>) -> Result<(), AllocError>
        ensures { OnOk result (self.new ≡ asking_one key self.old) }
    {
        if let Some(key) = key {
            self.places.insert(key, None)?;
        }
        Ok(())
    }

    /// What is known of a key; none where it is not asked for.
    pub fn find(&self, key: &Key) -> Option<Option<u64>>
        ensures { result ≡ finite.get self.now key.now }
    {
        self.places.get(key).copied()
    }

    /// Says where a row stands, where it is asked for. It takes no memory.
    pub fn place(&mut self, key: &Key, position: Option<u64>)
        ensures { self.new ≡ placing key.now position self.old }
    {
        let Some(place) = self.places.get_mut(key) else {
            return;
        };
        *place = position;
    }
}
