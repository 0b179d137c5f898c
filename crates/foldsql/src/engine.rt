ghost use Rattle.std.specs.Prelude.{◌≡◌, ◌≢◌, ◌≤◌, Bool, IsTrue, IsOk, IsErr, OnOk, []};
ghost use Rattle.mt_machine.specs.Meaning.{Disk};
ghost use Rattle.mt_machine.specs.Keeps.{Keeps, DiskMayFail};
ghost use Rattle.mt_machine.specs.Leaves.{Leaves};
ghost use Rattle.mt_tree.specs.declared.code.Code.TheVariants as code;
ghost use Rattle.mt_script.specs.Lines.{Text, TooLong};
ghost use Rattle.mt_model.specs.Laws.{EachStepPrints};
ghost use Rattle.mt_model.specs.Request.{Overlong};
ghost use Rattle.mt_model.specs.Run.{Rules};
ghost use Rattle.mt_model.specs.Service.{Service};
ghost use Rattle.mt_model.specs.Step.{refused};
ghost use Rattle.foldsql.specs.Turns.{DoesLine};

use mt_machine::{Failed, Machine};
use mt_tree::Reply;

/// What answers lines on a machine, one after another.
pub(crate) trait Engine {
    /// Which lines say what, and what a request does.
    ghost rules: { Rules };

    /// Which disks hold a service.
    ghost laid: { Service → Disk → Type 0 };

    /// With a disk that reads so the engine keeps this service.
    ghost holds: { Self → Service → Disk → Type 0 };

    /// What a stop may leave beside a disk that reads so.
    ghost may_leave: { Self → Disk → Disk → Type 0 };

    /// What is so of it on any machine, also on one that tells nothing.
    ghost sound: { Self → Type 0 };

    /// Whether it leaves the machine alone: no call on it at all.
    ghost leaves_disk: { Bool };

    /// Answers a line that is not too long and not silent. It puts nothing out. After `Failed`, a fault of
    /// the disk, a stop leaves the service before the line or the one behind it.
    fn line<M: Machine>(&mut self, machine: &mut M, line: &[u8]) -> Result<Reply, Failed>
        requires sound { sound self.old }
        requires ready { (service : Service) × Keeps (holds self.old service) (may_leave self.old) (M.meaning machine.old) }
        ensures does { IsTrue (M.meaning machine.new).tells → (service : Service) → Keeps (holds self.old service) (may_leave self.old) (M.meaning machine.old)
            → DoesLine rules laid (λ next. Keeps (holds self.new next) (may_leave self.new) (M.meaning machine.new)) result (Text line.now) service (M.meaning machine.old) (M.meaning machine.new) }
        ensures ready { OnOk result ((service : Service) × Keeps (holds self.new service) (may_leave self.new) (M.meaning machine.new)) }
        ensures sound { OnOk result (sound self.new) }
        ensures quiet { Leaves (λ _. Unit {0}) (M.meaning machine.old) (M.meaning machine.new) }
        ensures alone { IsTrue leaves_disk → IsOk result × (machine.new ≡ machine.old) }
        ensures cause { IsErr result → DiskMayFail (M.meaning machine.old) (M.meaning machine.new) }
        ensures stood { OnOk result ((M.meaning machine.new).disk_faults ≡ (M.meaning machine.old).disk_faults) }
        ensures beneath { M.beneath machine.old machine.new };

    /// A line that is too long says so.
    ghost says_too_long: { rules.says TooLong Overlong };

    /// Such a line is refused.
    ghost refuses_too_long: { (service : Service) → rules.step service Overlong ≡ refused service code.LineTooLong };

    /// Each reply of a step prints something.
    ghost prints: { EachStepPrints rules };

    /// What a stop leaves holds the service.
    ghost laid_beside: { (engine : Self) (service : Service) (content image : Disk) → holds engine service content → may_leave engine content image → laid service image };
}
