ghost use Rattle.std.specs.Prelude.{◌≡◌, ◌^◌, ◌<◌, ◌≤◌};

use crate::create_tenant::create_tenant;
use crate::engine::Engine;
use mt_machine::{Failed, Machine};
use mt_tree::{Code, Reply, ReplyText};
use std::alloc::Global;
use std::collections::BTreeMap;
use std::marker::Model;

// The most that all quotas together may be.
const TOTAL_MAX: u64 = 1_048_576;

/// The tenants and their quotas: the service as far as `run` serves it. Contracts see the pairs of
/// a tenant and its quota.
#[derive(Drop)]
pub(crate) struct Tenants {
    alloc: Global,
    quotas: BTreeMap<u32, u32>,
    // all quotas together
    total: u64,
}

impl Model for Tenants {
    ghost use Rattle.std.specs.Prelude.{List, ℕ};
    ghost use Rattle.foldsql.specs.Tenants.{IsTotal};

    ghost Value = { List (ℕ × ℕ) };

    ghost view = { λ t. t.quotas.entries };

    ghost invariant = { λ t. IsTotal t.quotas.entries t.total };
}

impl Engine for Tenants {
    ghost use Rattle.std.specs.Prelude.{◌≡◌, true, refl};
    ghost use Rattle.mt_model.specs.FirstPath.{first_path};
    ghost use Rattle.mt_model.specs.Prints.{first_path_prints};
    ghost use Rattle.foldsql.specs.Moments.{on_any_disk};
    ghost use Rattle.foldsql.specs.Tenants.{service_with_quotas};

    ghost rules = { first_path };

    ghost laid = { on_any_disk };

    ghost holds = { λ tenants service _. service ≡ service_with_quotas tenants };

    ghost may_leave = { λ _ _ _. Unit {0} };

    ghost sound = { λ _. Unit {0} };

    ghost leaves_disk = { true };

    fn line<M: Machine>(&mut self, machine: &mut M, line: &[u8]) -> Result<Reply, Failed> {
        Ok(self.answer(line))
    }

    ghost says_too_long = { tt };

    ghost refuses_too_long = { λ service. refl };

    ghost prints = { first_path_prints };

    ghost laid_beside = { λ _ _ _ _ _ _. tt };
}

impl Tenants {
    ghost use Rattle.mt_script.specs.Lines.{Text};
    ghost use Rattle.mt_model.specs.FirstPath.{first_path};
    ghost use Rattle.mt_model.specs.Request.{Request};
    ghost use Rattle.mt_model.specs.Run.{Answers};
    ghost use Rattle.mt_model.specs.Service.{empty_service};
    ghost use Rattle.foldsql.specs.Tenants.{service_with_quotas, Creates};

    // No tenant.
    pub(crate) fn new(alloc: Global) -> Tenants
        ensures { service_with_quotas result ≡ empty_service }
    {
        Tenants {
            alloc,
            quotas: BTreeMap::new(alloc),
            total: 0,
        }
    }

    // Answers a line that is not too long and not silent.
    fn answer(&mut self, line: &[u8]) -> Reply
        ensures { (request : Request) × Answers first_path (service_with_quotas self.old) (Text line.now) request result (service_with_quotas self.new) }
    {
        match create_tenant(line) {
            Some((tenant, quota)) => self.create(tenant, quota),
            None => Reply::Refused(Code::NotServed),
        }
    }

    // Answers the command that makes a tenant with a quota. Want of memory is answered only in the
    // place of a reply that may yield to it, and leaves the tenants as they are.
    fn create(&mut self, tenant: u64, quota: u64) -> Reply
        requires tenant { tenant < 2 ^ 32 }
        requires quota { quota ≤ 65536 }
        ensures { Creates tenant quota self.old result self.new }
    {
        let tenant = tenant as u32;
        if self.quotas.contains_key(&tenant) {
            return Reply::Refused(Code::NameExists);
        }
        let total = self.total + quota;
        if total > TOTAL_MAX {
            return Reply::Refused(Code::QuotasTooLarge);
        }
        let Ok(text) = ReplyText::from_bytes(self.alloc, b"ok\n") else {
            return Reply::Memory;
        };
        let Ok(_) = self.quotas.insert(tenant, quota as u32) else {
            return Reply::Memory;
        };
        self.total = total;
        Reply::Text(text)
    }
}
