use crate::name::Names;
use crate::statement::Select;
use mt_list::List;
use mt_value::Str;

/// A command of the administrator.
#[derive(Debug, Drop)]
pub enum AdminCmd {
    CreateTable {
        name: Str,
        columns: List<Def>,
        key: Names,
    },
    CreateExtension {
        name: Str,
        base: Str,
        columns: List<Def>,
    },
    CreateTenant {
        tenant: u64,
        quota: u64,
    },
    Extend {
        tenant: u64,
        extension: Str,
    },
    SetQuota {
        tenant: u64,
        quota: u64,
    },
    Advise {
        tenant: u64,
        table: Str,
    },
    ShowFold {
        tenant: u64,
        table: Str,
    },
    Refold {
        tenant: u64,
        table: Str,
        fold: FoldText,
    },
    Step {
        tenant: u64,
        table: Str,
        rows: u64,
    },
    Explain {
        tenant: u64,
        select: Select,
    },
}

/// The definition of a column. `not_null` is false in an extension.
#[derive(Debug, Drop)]
pub struct Def {
    pub name: Str,
    pub kind: DefKind,
    pub not_null: bool,
}

/// The kind of a column as it is written: VARCHAR with any size.
#[derive(Clone, Copy, Debug, PartialEq, Eq)]
pub enum DefKind {
    Integer,
    Varchar(u64),
}

/// A fold as it is written. An empty `conv` is one that is not written.
#[derive(Debug, Drop)]
pub struct FoldText {
    pub conv: Names,
    pub chunks: List<ChunkText>,
}

/// A chunk as it is written, with a shape from 1 to 6.
#[derive(Debug, Drop)]
pub struct ChunkText {
    pub shape: u8,
    pub columns: Names,
}
