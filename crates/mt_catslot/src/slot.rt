ghost use Rattle.std.specs.Prelude.{◌≡◌};
ghost use Rattle.mt_catslot.specs.Slots.{key_of, table_of};

use mt_fold::Shape;
use mt_list::Duplicate;
use mt_tree::Kind;
use mt_value::Str;
use std::alloc::{AllocError, Global};

/// What a slot of names is of: a base table, or an extension of one. Each class is numbered from 0 in
/// the order of creation.
#[derive(Clone, Copy, Debug, PartialEq, Eq, Hash)]
pub enum Class {
    BaseTable,
    Extension,
}

/// How the rows of a table lie: all in the fold of one generation, or, while it moves, in the old fold,
/// which has this generation, from the frontier up to `upto`.
#[derive(Clone, Copy, Debug, PartialEq, Eq)]
pub enum Motion {
    Settled {
        generation: u8,
    },
    Moving {
        generation: u8,
        frontier: u64,
        upto: u64,
    },
}

/// What a slot of the catalogue says.
#[derive(Debug, Drop)]
pub enum CatSlot {
    /// A base table, with its own number as `base`, or an extension of the base table `base`.
    Relation {
        class: Class,
        number: u32,
        base: u32,
        name: Str,
    },
    /// A column, by its position in the base table or extension.
    Column {
        class: Class,
        number: u32,
        position: u32,
        kind: Kind,
        not_null: bool,
        key: bool,
        name: Str,
    },
    Tenant {
        tenant: u32,
        quota: u32,
    },
    /// A tenant's table: how many rows were ever made, and how they lie.
    Placement {
        tenant: u32,
        base: u32,
        made: u64,
        motion: Motion,
    },
    /// An extension of a tenant's table, by its position in the order of EXTEND.
    Extended {
        tenant: u32,
        base: u32,
        position: u32,
        extension: u32,
    },
    /// A column of a tenant's table that lies in a chunk of the fold of this generation.
    Field {
        tenant: u32,
        base: u32,
        generation: u8,
        column: u32,
        shape: Shape,
        chunk: u8,
        field: u8,
    },
}

/// What a slot of the catalogue is found by. No catalogue has two slots with one key.
#[derive(Clone, Copy, Debug, PartialEq, Eq, Hash)]
pub enum CatKey {
    Relation {
        class: Class,
        number: u32,
    },
    Column {
        class: Class,
        number: u32,
        position: u32,
    },
    Tenant {
        tenant: u32,
    },
    Placement {
        tenant: u32,
        base: u32,
    },
    Extended {
        tenant: u32,
        base: u32,
        position: u32,
    },
    Field {
        tenant: u32,
        base: u32,
        generation: u8,
        column: u32,
    },
}

impl CatSlot {
    /// The table of the catalogue in which it stands, from 8 to 13.
    pub fn table(&self) -> u32
        ensures { result ≡ table_of self.now }
    {
        match self {
            CatSlot::Relation { .. } => 8,
            CatSlot::Column { .. } => 9,
            CatSlot::Tenant { .. } => 10,
            CatSlot::Placement { .. } => 11,
            CatSlot::Extended { .. } => 12,
            CatSlot::Field { .. } => 13,
        }
    }

    /// What it is found by.
    pub fn key(&self) -> CatKey
        ensures { result ≡ key_of self.now }
    {
        match self {
            CatSlot::Relation { class, number, .. } => CatKey::Relation {
                class: *class,
                number: *number,
            },
            CatSlot::Column {
                class,
                number,
                position,
                ..
            } => CatKey::Column {
                class: *class,
                number: *number,
                position: *position,
            },
            CatSlot::Tenant { tenant, .. } => CatKey::Tenant { tenant: *tenant },
            CatSlot::Placement { tenant, base, .. } => CatKey::Placement {
                tenant: *tenant,
                base: *base,
            },
            CatSlot::Extended {
                tenant,
                base,
                position,
                ..
            } => CatKey::Extended {
                tenant: *tenant,
                base: *base,
                position: *position,
            },
            CatSlot::Field {
                tenant,
                base,
                generation,
                column,
                ..
            } => CatKey::Field {
                tenant: *tenant,
                base: *base,
                generation: *generation,
                column: *column,
            },
        }
    }
}

impl Duplicate for CatSlot {
    fn copy(&self, _alloc: Global) -> Result<CatSlot, AllocError> {
        Ok(match self {
            CatSlot::Relation {
                class,
                number,
                base,
                name,
            } => CatSlot::Relation {
                class: *class,
                number: *number,
                base: *base,
                name: name.copy()?,
            },
            CatSlot::Column {
                class,
                number,
                position,
                kind,
                not_null,
                key,
                name,
            } => CatSlot::Column {
                class: *class,
                number: *number,
                position: *position,
                kind: *kind,
                not_null: *not_null,
                key: *key,
                name: name.copy()?,
            },
            CatSlot::Tenant { tenant, quota } => CatSlot::Tenant {
                tenant: *tenant,
                quota: *quota,
            },
            CatSlot::Placement {
                tenant,
                base,
                made,
                motion,
            } => CatSlot::Placement {
                tenant: *tenant,
                base: *base,
                made: *made,
                motion: *motion,
            },
            CatSlot::Extended {
                tenant,
                base,
                position,
                extension,
            } => CatSlot::Extended {
                tenant: *tenant,
                base: *base,
                position: *position,
                extension: *extension,
            },
            CatSlot::Field {
                tenant,
                base,
                generation,
                column,
                shape,
                chunk,
                field,
            } => CatSlot::Field {
                tenant: *tenant,
                base: *base,
                generation: *generation,
                column: *column,
                shape: *shape,
                chunk: *chunk,
                field: *field,
            },
        })
    }
}
