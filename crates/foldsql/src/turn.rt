ghost use Rattle.std.specs.Prelude.{◌≡◌, ◌≢◌, ◌<◌, ◌+◌, IsTrue, IfNone, OnOk, OnErr, length};
ghost use Rattle.mt_machine.specs.Keeps.{Keeps};
ghost use Rattle.mt_machine.specs.Calls.{Emits};
ghost use Rattle.mt_tree.specs.Replies.{reply_bytes};
ghost use Rattle.mt_script.specs.Lines.{Text};
ghost use Rattle.mt_model.specs.Service.{Service};
ghost use Rattle.foldsql.specs.Serves.{KeepsAreas};
ghost use Rattle.foldsql.specs.Turns.{Counts, LineOutcome, MachineCounts, Turns};
ghost use Rattle.foldsql.specs.declared.status.Status.{Status};

use crate::engine::Engine;
use crate::status::Status;
use mt_machine::{Failed, Machine, Source};
use mt_script::{LineReader, ReadStop, Took, reply_bytes, silent};
use mt_tree::{Code, Reply};

// Reads the next line and answers it before more is read; or the status that the run ends with.
pub(crate) fn turn<E: Engine, M: Machine, S: Source>(
    reader: &mut LineReader,
    source: &mut S,
    engine: &mut E,
    machine: &mut M,
) -> Option<Status>
    requires sound { E.sound engine.old }
    requires ready { (service : Service) × Keeps (E.holds engine.old service) (E.may_leave engine.old) (M.meaning machine.old) }
    ensures turns { Turns E.rules E.laid (λ service. Keeps (E.holds engine.old service) (E.may_leave engine.old) (M.meaning machine.old))
        (λ service. Keeps (E.holds engine.new service) (E.may_leave engine.new) (M.meaning machine.new))
        result reader.old reader.new (S.supply source.old) (S.supply source.new) (M.meaning machine.old) (M.meaning machine.new) }
    ensures goes_on { IfNone result (reader.new.budget + length reader.new.held < reader.old.budget + length reader.old.held) }
    ensures sound { IfNone result (E.sound engine.new) }
    ensures ready { IfNone result ((service : Service) × Keeps (E.holds engine.new service) (E.may_leave engine.new) (M.meaning machine.new)) }
    ensures counts { MachineCounts result (M.meaning machine.old) (M.meaning machine.new) }
    ensures takes { Counts (result ≡ Some Status.SourceFault) (S.supply source.old).faults (S.supply source.new).faults }
    ensures areas { IsTrue E.leaves_disk → KeepsAreas (M.meaning machine.old) (M.meaning machine.new) }
    ensures alone { IsTrue E.leaves_disk → result ≢ Some Status.DiskFault }
    ensures beneath { M.beneath machine.old machine.new }
{
    match reader.next(source) {
        Ok(Took::Line) => answer(engine, reader.line(), machine),
        Ok(Took::TooLong) => status_of(put_out(&Reply::Refused(Code::LineTooLong), machine)),
        Ok(Took::End) => Some(Status::Done),
        Err(ReadStop::Source) => Some(Status::SourceFault),
        Err(ReadStop::Budget) => Some(Status::InputTooLong),
    }
}

// Answers a line that is not too long; or the status that the run ends with. A silent line gets nothing.
fn answer<E: Engine, M: Machine>(engine: &mut E, line: &[u8], machine: &mut M) -> Option<Status>
    requires sound { E.sound engine.old }
    requires ready { (service : Service) × Keeps (E.holds engine.old service) (E.may_leave engine.old) (M.meaning machine.old) }
    ensures answers { LineOutcome E.rules E.laid (λ service. Keeps (E.holds engine.old service) (E.may_leave engine.old) (M.meaning machine.old))
        (λ service. Keeps (E.holds engine.new service) (E.may_leave engine.new) (M.meaning machine.new))
        result (Text line.now) (M.meaning machine.old) (M.meaning machine.new) }
    ensures sound { IfNone result (E.sound engine.new) }
    ensures ready { IfNone result ((service : Service) × Keeps (E.holds engine.new service) (E.may_leave engine.new) (M.meaning machine.new)) }
    ensures counts { MachineCounts result (M.meaning machine.old) (M.meaning machine.new) }
    ensures areas { IsTrue E.leaves_disk → KeepsAreas (M.meaning machine.old) (M.meaning machine.new) }
    ensures alone { IsTrue E.leaves_disk → result ≢ Some Status.DiskFault }
    ensures source { result ≢ Some Status.SourceFault }
    ensures beneath { M.beneath machine.old machine.new }
{
    if silent(line) {
        return None;
    }
    match engine.line(machine, line) {
        Ok(reply) => status_of(put_out(&reply, machine)),
        Err(Failed) => Some(Status::DiskFault),
    }
}

// Puts out what a reply prints, by one emit.
fn put_out<M: Machine>(reply: &Reply, machine: &mut M) -> Result<(), Failed>
    ensures emits { Emits result (reply_bytes reply.now) (M.meaning machine.old) (M.meaning machine.new) }
    ensures beneath { M.beneath machine.old machine.new }
{
    machine.emit(reply_bytes(reply))
}

// The status that the run ends with where a reply was not put out.
fn status_of(answered: Result<(), Failed>) -> Option<Status>
    ensures ok { OnOk answered (result ≡ None) }
    ensures err { OnErr answered (result ≡ Some Status.EmitFault) }
{
    match answered {
        Ok(()) => None,
        Err(Failed) => Some(Status::EmitFault),
    }
}
