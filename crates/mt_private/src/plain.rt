ghost use Rattle.std.specs.Prelude.{◌≡◌};
ghost use Rattle.mt_script.specs.Lines.{Text};
ghost use Rattle.mt_model.specs.Isolation.{service_rules};
ghost use Rattle.mt_model.specs.Request.{Request};
ghost use Rattle.mt_model.specs.Run.{Answers};
ghost use Rattle.mt_model.specs.Service.{Service, empty_service};
ghost use Rattle.mt_private.specs.Kept.{IsKept};

use crate::command::command;
use crate::kept::TenantRows;
use crate::statement::statement;
use indexmap::IndexMap;
use mt_catalog::Catalog;
use mt_list::List;
use mt_model::empty_services_have_no_parts;
use mt_script::split_tag;
use mt_tree::{Code, Reply, Who};
use std::alloc::Global;
use std::str::from_utf8;

/// The whole service in memory: its catalogue, and the rows of each tenant's tables.
#[derive(Drop)]
pub struct Plain {
    alloc: Global,
    catalog: Catalog,
    rows: TenantRows,
}

impl Plain {
    /// The empty service.
    pub fn new(alloc: Global) -> Plain
        ensures { IsKept result empty_service }
    {
        empty_services_have_no_parts();
        Plain {
            alloc,
            catalog: Catalog {
                bases: List::new(alloc),
                extensions: List::new(alloc),
                tenants: IndexMap::new(alloc),
            },
            rows: TenantRows::new(alloc),
        }
    }

    /// Answers a line that is not too long and not silent: the reply of the service's step, after which
    /// the next service is kept. `Reply::Memory` leaves the service as it was, and never comes in the
    /// place of E02 and E03.
    pub fn line(&mut self, line: &[u8]) -> Reply
        requires { (service : Service) × IsKept self.old service }
        ensures { (service : Service) → IsKept self.old service → (request : Request) × (next : Service) × Answers service_rules service (Text line.now) request result next × IsKept self.new next }
    {
        let Some(tagged) = split_tag(line) else {
            return Reply::Refused(Code::LineNotReadable);
        };
        let Ok(text) = from_utf8(&line[tagged.from..]) else {
            return Reply::Refused(Code::LineNotReadable);
        };
        match tagged.who {
            Who::Admin => command(self.alloc, &mut self.catalog, &mut self.rows, text),
            Who::Tenant(tenant) => {
                statement(self.alloc, &mut self.catalog, &mut self.rows, tenant, text)
            }
        }
    }
}
