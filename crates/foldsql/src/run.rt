ghost use Rattle.std.specs.Prelude.{◌≡◌, ◌≢◌, IsTrue, []};
ghost use Rattle.mt_machine.specs.Keeps.{Keeps};
ghost use Rattle.mt_model.specs.Service.{Service};
ghost use Rattle.foldsql.specs.Serves.{KeepsAreas, Serves};
ghost use Rattle.foldsql.specs.Status.{last_line};
ghost use Rattle.foldsql.specs.Turns.{AnswersInput, Counts, FinishCounts, Finishes, HasStatusCause, MachineCounts};
ghost use Rattle.foldsql.specs.declared.status.Status.{Status};

use crate::engine::Engine;
use crate::status::Status;
use crate::turn::turn;
use mt_machine::{Failed, Machine, Source};
use mt_script::LineReader;
use std::alloc::Global;

// The most bytes that an input may have, and one more.
const INPUT_MAX: u64 = 1 << 40;

// A whole run over an engine that keeps some service; the status that it ends with.
pub(crate) fn run<E: Engine, M: Machine, S: Source>(
    alloc: Global,
    engine: &mut E,
    source: &mut S,
    machine: &mut M,
) -> Status
    requires sound { E.sound engine.old }
    requires ready { (first : Service) × Keeps (E.holds engine.old first) (E.may_leave engine.old) (M.meaning machine.old) }
    ensures serves { (first : Service) → Keeps (E.holds engine.old first) (E.may_leave engine.old) (M.meaning machine.old)
        → Serves E.rules E.laid first result (M.meaning machine.old) (M.meaning machine.new) (S.supply source.old) (S.supply source.new) }
    ensures cause { HasStatusCause result (M.meaning machine.old) (M.meaning machine.new) (S.supply source.old) (S.supply source.new) }
    ensures areas { IsTrue E.leaves_disk → KeepsAreas (M.meaning machine.old) (M.meaning machine.new) }
    ensures alone { IsTrue E.leaves_disk → result ≢ Status.DiskFault }
    ensures beneath { M.beneath machine.old machine.new }
{
    finish(serve(alloc, engine, source, machine), machine)
}

// Puts out the last line of a run, where its status has one; the status that the run then ends with.
pub(crate) fn finish<M: Machine>(status: Status, machine: &mut M) -> Status
    ensures silent { last_line status ≡ [] → (result ≡ status) × (machine.new ≡ machine.old) }
    ensures finishes { last_line status ≢ [] → Finishes status result (M.meaning machine.old) (M.meaning machine.new) }
    ensures counts { FinishCounts status result (M.meaning machine.old) (M.meaning machine.new) }
    ensures areas { KeepsAreas (M.meaning machine.old) (M.meaning machine.new) }
    ensures beneath { M.beneath machine.old machine.new }
{
    let line = status.last_line();
    if line.is_empty() {
        return status;
    }
    match machine.emit(line.as_bytes()) {
        Ok(()) => status,
        Err(Failed) => Status::EmitFault,
    }
}

// Answers the lines of an input, each before more is read; the status that the run comes to.
fn serve<E: Engine, M: Machine, S: Source>(
    alloc: Global,
    engine: &mut E,
    source: &mut S,
    machine: &mut M,
) -> Status
    requires sound { E.sound engine.old }
    requires ready { (first : Service) × Keeps (E.holds engine.old first) (E.may_leave engine.old) (M.meaning machine.old) }
    ensures answers { (first : Service) → Keeps (E.holds engine.old first) (E.may_leave engine.old) (M.meaning machine.old)
        → AnswersInput E.rules E.laid first result (M.meaning machine.old) (M.meaning machine.new) (S.supply source.old) (S.supply source.new) }
    ensures counts { MachineCounts (Some result) (M.meaning machine.old) (M.meaning machine.new) }
    ensures takes { Counts (result ≡ Status.SourceFault) (S.supply source.old).faults (S.supply source.new).faults }
    ensures areas { IsTrue E.leaves_disk → KeepsAreas (M.meaning machine.old) (M.meaning machine.new) }
    ensures alone { IsTrue E.leaves_disk → result ≢ Status.DiskFault }
    ensures beneath { M.beneath machine.old machine.new }
{
    let Ok(mut reader) = LineReader::new(alloc, INPUT_MAX) else {
        return Status::NoMemory;
    };
    'turns: loop {
        if let Some(status) = turn(&mut reader, source, engine, machine) {
            return status;
        }
    }
}
