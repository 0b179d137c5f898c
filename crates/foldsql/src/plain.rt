use crate::engine::Engine;
use mt_machine::{Failed, Machine};
use mt_private::Plain;
use mt_tree::Reply;

impl Engine for Plain {
    ghost use Rattle.std.specs.Prelude.{true, refl};
    ghost use Rattle.mt_model.specs.Isolation.{service_rules};
    ghost use Rattle.mt_model.specs.Prints.{service_prints};
    ghost use Rattle.mt_model.specs.Service.{Service};
    ghost use Rattle.mt_private.specs.Kept.{IsKept};
    ghost use Rattle.foldsql.specs.Moments.{on_any_disk};

    ghost rules = { service_rules };

    ghost laid = { on_any_disk };

    ghost holds = { λ plain service _. IsKept plain service };

    ghost may_leave = { λ _ _ _. Unit {0} };

    ghost sound = { λ plain. (service : Service) × IsKept plain service };

    ghost leaves_disk = { true };

    fn line<M: Machine>(&mut self, machine: &mut M, line: &[u8]) -> Result<Reply, Failed> {
        Ok(Plain::line(self, line))
    }

    ghost says_too_long = { tt };

    ghost refuses_too_long = { λ service. refl };

    ghost prints = { service_prints };

    ghost laid_beside = { λ _ _ _ _ _ _. tt };
}
