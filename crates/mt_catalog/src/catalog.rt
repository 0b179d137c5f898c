use crate::{Extension, TenantEntry};
use indexmap::IndexMap;
use mt_list::List;
use mt_tree::Table;
use std::marker::Model;

/// The catalogue of a disk. Tenants are found by their numbers in constant time.
#[derive(Debug, Drop)]
pub struct Catalog {
    pub bases: List<Table>,
    pub extensions: List<Extension>,
    pub tenants: IndexMap<u32, TenantEntry>,
}

impl Model for Catalog {
    ghost use Rattle.std.specs.FinMap as finite;
    ghost use Rattle.mt_catalog.specs.Coded.{state_code};
    ghost use Rattle.mt_catalog.specs.State.{State};

    ghost Value = { State };

    ghost coded = { state_code };

    ghost view = { λ catalog. record { bases = catalog.bases; extensions = catalog.extensions; tenants = finite.from_entries catalog.tenants.entries } };
}
