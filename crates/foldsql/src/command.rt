ghost use Rattle.std.specs.Prelude.{◌≡◌, ◌≢◌, ◌⊎◌, ◌≤◌, ◌<◌, ◌^◌, ◌∷◌, [], ◌↔◌, IsTrue, length, map, string_bytes};
ghost use Rattle.mt_machine.specs.Meaning.{Rose};
ghost use Rattle.mt_model.specs.FirstPath.{first_path};
ghost use Rattle.mt_model.specs.Service.{empty_service};
ghost use Rattle.foldsql.specs.Moments.{on_any_disk};
ghost use Rattle.foldsql.specs.Serves.{AsksRun, AsksPlain, IsEnd, IsRefusal, KeepsAreas, Serves, ServesTenants};
ghost use Rattle.foldsql.specs.Status.{code_of};
ghost use Rattle.foldsql.specs.Turns.{HasStatusCause};
ghost use Rattle.foldsql.specs.declared.status.Status.{Status};

use crate::run::{finish, run};
use crate::status::Status;
use crate::tenants::Tenants;
use mt_machine::{Machine, Source};
use mt_model::isolation;
use mt_private::Plain;
use std::alloc::Global;
use std::thread::Threads;

// Whether the words are this one.
fn is_word(words: &[String], word: &str) -> bool
    ensures { IsTrue result ↔ (map string_bytes words.now ≡ word.now ∷ []) }
{
    match words {
        [only] => only.as_str() == word,
        _ => false,
    }
}

// A run of the whole service, kept as a catalogue and plain lists of rows.
fn run_plain<M: Machine, S: Source>(alloc: Global, source: &mut S, machine: &mut M) -> Status
    ensures serves { ServesTenants result (M.meaning machine.old) (M.meaning machine.new) (S.supply source.old) (S.supply source.new) }
    ensures areas { KeepsAreas (M.meaning machine.old) (M.meaning machine.new) }
    ensures alone { result ≢ Status.DiskFault }
    ensures cause { HasStatusCause result (M.meaning machine.old) (M.meaning machine.new) (S.supply source.old) (S.supply source.new) }
    ensures beneath { M.beneath machine.old machine.new }
{
    isolation();
    run(alloc, &mut Plain::new(alloc), source, machine)
}

/// Does what the words after the program's name ask for, and answers the status that the process
/// ends with.
///
/// `run` and `plain` answer each line of the source by one emit before they read the next line:
/// `run` serves the one form that makes a tenant, `plain` the whole service. Words that are neither
/// end with status 2. No area is read or written, and so nothing of them changes at any moment.
pub fn foldsql<R: Threads + Sync, M: Machine, S: Source>(
    rt: &R,
    alloc: Global,
    words: &[String],
    source: &mut S,
    machine: &mut M,
) -> u8
    // The replies are those of the service, and the lines those of the input.
    ensures run { AsksRun words.now → (status : Status) × (result ≡ code_of status)
        × Serves first_path on_any_disk empty_service status (M.meaning machine.old) (M.meaning machine.new) (S.supply source.old) (S.supply source.new) }
    ensures plain { AsksPlain words.now → (status : Status) × (result ≡ code_of status)
        × ServesTenants status (M.meaning machine.old) (M.meaning machine.new) (S.supply source.old) (S.supply source.new) }

    // Other words are refused, and the source stays as it was.
    ensures refused { (AsksRun words.now → ⊥) → (AsksPlain words.now → ⊥) → (status : Status) × (result ≡ code_of status)
        × IsRefusal status (M.meaning machine.old) (M.meaning machine.new) × (source.new ≡ source.old) }

    // The cause of each status. A count of faults rises only where the status tells of it, or where the
    // output then fails within the line that tells of the input.
    ensures statuses { IsEnd result }
    ensures words { result ≡ 2 → (AsksRun words.now → ⊥) × (AsksPlain words.now → ⊥) }
    ensures emit_fault { result ≡ 5 → Rose (M.meaning machine.old).emit_faults (M.meaning machine.new).emit_faults }
    ensures emit_only { (result ≡ 5 → ⊥) → (M.meaning machine.new).emit_faults ≡ (M.meaning machine.old).emit_faults }
    ensures source_fault { result ≡ 6 → Rose (S.supply source.old).faults (S.supply source.new).faults }
    ensures source_only { (result ≡ 6 → ⊥) → (result ≡ 5 → ⊥) → (S.supply source.new).faults ≡ (S.supply source.old).faults }

    // Where neither the output nor the input fails, and the input is not too long, each line is
    // answered, unless there was not memory enough to begin.
    ensures complete { AsksRun words.now ⊎ AsksPlain words.now
        → (Rose (M.meaning machine.old).emit_faults (M.meaning machine.new).emit_faults → ⊥)
        → (Rose (S.supply source.old).faults (S.supply source.new).faults → ⊥)
        → IsTrue (S.supply source.new).tells → length (S.supply source.old).left < 2 ^ 40 → (result ≡ 0) ⊎ (result ≡ 8) }

    // The counts of faults never fall, and nothing but the output changes.
    ensures emit_faults { (M.meaning machine.old).emit_faults ≤ (M.meaning machine.new).emit_faults }
    ensures faults { (S.supply source.old).faults ≤ (S.supply source.new).faults }
    ensures areas { KeepsAreas (M.meaning machine.old) (M.meaning machine.new) }
    ensures beneath { M.beneath machine.old machine.new }
{
    if is_word(words, "run") {
        run(alloc, &mut Tenants::new(alloc), source, machine).code()
    } else if is_word(words, "plain") {
        run_plain(alloc, source, machine).code()
    } else {
        finish(Status::Words, machine).code()
    }
}
