use mt_fold::Placement;
use mt_list::List;
use mt_rowfile::CatBody;
use mt_tree::Columns;
use mt_value::Str;

/// The bodies of slots of the catalogue, each with its table from 8 to 13.
pub type CatBodies = List<(u32, CatBody)>;

/// Numbers of extensions, in the order of EXTEND.
pub type Numbers = List<u32>;

/// An extension of the base table with the number `base`.
#[derive(Debug, Drop)]
pub struct Extension {
    pub name: Str,
    pub base: u32,
    pub columns: Columns,
}

/// A tenant's table: how many rows were ever made, its extensions, and how its rows lie.
#[derive(Debug, Drop)]
pub struct TenantTable {
    pub made: u64,
    pub extended: Numbers,
    pub placement: Placement,
}

/// What is kept of a tenant: the quota, and a table for each base table.
#[derive(Debug, Drop)]
pub struct TenantEntry {
    pub quota: u32,
    pub tables: List<TenantTable>,
}
