ghost use Rattle.std.specs.Prelude.{◌≡◌, ◌<◌, ℕ, length, IfOk, OnOk, filter_map};
ghost use Rattle.std.specs.FinMap as finite;
ghost use Rattle.mt_places.specs.Held.{all_bodies, asking, asking_one, placing};
ghost use Rattle.mt_places.specs.Named.{body_key};

use mt_physplan::Change;
use std::alloc::{AllocError, Global};
use std::collections::BTreeMap;
use std::marker::Model;

/// Where each slot of one table of the catalogue stands that is asked for, if anywhere, by its body.
#[derive(Debug, Drop)]
pub(crate) struct TableBodies {
    places: BTreeMap<Vec<u8>, Option<u64>>,
}

impl Model for TableBodies {
    ghost use Rattle.std.specs.Prelude.{ℕ, Option, map};
    ghost use Rattle.std.specs.Ordering.{nat_cmp};
    ghost use Rattle.std.specs.Cmp.Lexicographic.{slice_cmp};
    ghost use Rattle.std.specs.Coded.{coded_ℕ, coded_list, coded_option};
    ghost use Rattle.std.specs.FinMap as finite;

    ghost Value = { finite.FinMap (slice_cmp nat_cmp) (Option ℕ) };

    ghost coded = { finite.code (coded_list coded_ℕ) (coded_option coded_ℕ) };

    ghost view = { λ it. finite.from_entries (map (λ e. (e.0.items, e.1)) it.places.entries) };
}

impl TableBodies {
    /// No body is asked for. It takes no memory, and growth takes it from `alloc`.
    pub fn new(alloc: Global) -> TableBodies
        ensures { result ≡ finite.empty }
    {
        TableBodies {
            places: BTreeMap::new(alloc),
        }
    }

    /// Asks for a body. `AllocError` is want of memory.
    pub fn ask(&mut self, alloc: Global, body: &[u8]) -> Result<(), AllocError>
        ensures { OnOk result (self.new ≡ finite.insert self.old body.now None) }
    {
        let body = Vec::from_slice(alloc, body)?;
        self.places.insert(body, None)?;
        Ok(())
    }

    /// What is known of a body; none where it is not asked for.
    pub fn find(&self, body: &[u8]) -> Option<Option<u64>>
        ensures { result ≡ finite.get self.now body.now }
    {
        self.places.get(body).copied()
    }

    /// Says where a body stands, where it is asked for. It takes no memory.
    pub fn place(&mut self, body: &[u8], position: Option<u64>)
        ensures { self.new ≡ placing body.now position self.old }
    {
        let Some(place) = self.places.get_mut(body) else {
            return;
        };
        *place = position;
    }
}

/// Where each slot of the catalogue stands that is asked for, if anywhere, by its table and its body.
#[derive(Debug, Drop)]
pub(crate) struct BodyPlaces {
    alloc: Global,
    tables: Vec<TableBodies>,
}

impl Model for BodyPlaces {
    ghost use Rattle.std.specs.Prelude.{ℕ, Option};
    ghost use Rattle.std.specs.Coded.{coded_ℕ, coded×, coded_list, coded_option};
    ghost use Rattle.std.specs.FinMap as finite;
    ghost use Rattle.mt_physplan.specs.Applied.{body_cmp};
    ghost use Rattle.mt_places.specs.Held.{all_bodies};

    ghost Value = { finite.FinMap body_cmp (Option ℕ) };

    ghost coded = { finite.code (coded× coded_ℕ (coded_list coded_ℕ)) (coded_option coded_ℕ) };

    ghost view = { λ it. all_bodies it.tables.items };
}

impl BodyPlaces {
    /// No body is asked for. It takes no memory, and growth takes it from `alloc`.
    pub fn new(alloc: Global) -> BodyPlaces
        ensures { result ≡ finite.empty }
    {
        BodyPlaces {
            alloc,
            tables: Vec::new(alloc),
        }
    }

    /// Asks for the slots of the catalogue that the changes name. `AllocError` is want of memory.
    pub fn asked(alloc: Global, changes: &[Change]) -> Result<BodyPlaces, AllocError>
        ensures { IfOk result (λ bodies. bodies ≡ asking (filter_map body_key changes.now) finite.empty) }
    {
        let mut bodies = BodyPlaces::new(alloc);
        for change in changes {
            bodies.ask_change(change)?;
        }
        Ok(bodies)
    }

    /// Asks for the slot of the catalogue that a change names, if any. `AllocError` is want of memory.
    fn ask_change(&mut self, change: &Change) -> Result<(), AllocError>
        ensures { OnOk result (self.new ≡ asking_one (body_key change.now) self.old) }
    {
        match change {
            Change::PutCat { table, body } | Change::RemoveCat { table, body } => {
                self.ask(*table, body.as_slice())
            }
            Change::Put { .. } | Change::Mark { .. } | Change::Remove { .. } => Ok(()),
        }
    }

    /// Asks for a slot of the catalogue. `AllocError` is want of memory.
    fn ask(&mut self, table: u32, body: &[u8]) -> Result<(), AllocError>
        ensures { OnOk result (self.new ≡ finite.insert self.old (table, body.now) None) }
    {
        let table = table as usize;
        reach_table(self.alloc, &mut self.tables, table)?;
        self.tables[table].ask(self.alloc, body)
    }

    /// What is known of a slot of the catalogue; none where it is not asked for.
    pub fn find(&self, table: u32, body: &[u8]) -> Option<Option<u64>>
        ensures { result ≡ finite.get self.now (table, body.now) }
    {
        let table = table as usize;
        if table >= self.tables.len() {
            return None;
        }
        self.tables[table].find(body)
    }

    /// Says where a slot of the catalogue stands, where it is asked for. It takes no memory.
    pub fn place(&mut self, table: u32, body: &[u8], position: Option<u64>)
        ensures { self.new ≡ placing (table, body.now) position self.old }
    {
        let table = table as usize;
        if table < self.tables.len() {
            self.tables[table].place(body, position);
        }
    }
}

/// Adds tables, of which no body is asked for, until there is one with this number. `AllocError` is
/// want of memory.
fn reach_table(alloc: Global, tables: &mut Vec<TableBodies>, table: usize) -> Result<(), AllocError>
    ensures reached { OnOk result (table < length tables.new.items) }
    ensures bodies { OnOk result (all_bodies tables.new.items ≡ all_bodies tables.old.items) }
{
    while tables.len() <= table {
        tables.push(TableBodies::new(alloc))?;
    }
    Ok(())
}
