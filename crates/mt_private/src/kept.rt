use mt_list::List;
use mt_tree::MarkedRow;
use std::collections::BTreeMap;

/// The rows of a tenant's tables, by the base table; those of a table may be absent while it has none.
pub(crate) type TableRows = List<List<MarkedRow>>;

/// The rows by the tenant.
pub(crate) type TenantRows = BTreeMap<u32, TableRows>;
