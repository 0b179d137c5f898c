ghost use Rattle.mt_tree.specs.declared.simple.SimpleStmt.{SimpleStmt};
ghost use Rattle.mt_model.specs.Request.{Statement};
ghost use Rattle.mt_model.specs.Said.{Said, IsStatementSaid};
ghost use Rattle.mt_model.specs.Service.{Service};
ghost use Rattle.mt_private.specs.Kept.{AreKept};
ghost use Rattle.mt_private.specs.Outcome.{IsAnswered};

use crate::insert::insert;
use crate::kept::TenantRows;
use crate::said::{ServeFault, said_statement};
use crate::seen::tenant_of;
use crate::select::select;
use mt_catalog::Catalog;
use mt_model::{each_text_says_something, parts_tell_the_service};
use mt_tree::{Code, Reply, SimpleStmt};
use std::alloc::Global;

/// Answers a tenant's line by the text behind its tag.
pub(crate) fn statement(
    alloc: Global,
    catalog: &mut Catalog,
    rows: &mut TenantRows,
    tenant: u32,
    text: &str,
) -> Reply
    requires { (service : Service) × AreKept catalog.old rows.old.entries service }
    ensures { (said : Said SimpleStmt) × IsStatementSaid text.now said × IsAnswered catalog.old catalog.new rows.old.entries rows.new.entries (Statement tenant said) result }
{
    each_text_says_something();
    parts_tell_the_service();
    if tenant_of(catalog, tenant).is_none() {
        return Reply::Refused(Code::UnknownTenant);
    }
    match said_statement(alloc, text) {
        Ok(SimpleStmt::Insert { table, values }) => {
            insert(alloc, catalog, rows, tenant, &table, values)
        }
        Ok(SimpleStmt::Select { table, columns }) => {
            select(alloc, catalog, rows, tenant, &table, columns)
        }
        Err(ServeFault::Unread) => Reply::Refused(Code::Syntax),
        Err(ServeFault::Outside) => Reply::Refused(Code::NumberOutside64Bits),
        Err(ServeFault::Unserved) => Reply::Refused(Code::NotServed),
        Err(ServeFault::Memory) => Reply::Memory,
    }
}
