//! foldsql: a database for many tenants, each with tables of its own. The program reads lines from
//! standard input and answers each on standard output before it reads the next. `foldsql run` serves
//! one line so far, the administrator's command that makes a tenant with a quota of rows;
//! `foldsql plain` serves tables and their extensions, tenants and their rows, kept as a catalogue and
//! plain lists in memory.
//!
//! The program promises that the replies are those of the service as `mt_model` defines it, one line
//! after another from the empty service on; that under `plain` no tenant learns of another; that a
//! line is answered whole or not at all, but for a reply that the output cuts off; that a line which
//! finds no memory changes nothing; that at every moment some whole replies are out, and a front of the
//! next; that neither area of the disk is touched; and that the status and the last line of the output
//! say why a run stopped.
#![tactic(auto)]

mod command;
mod create_tenant;
mod engine;
mod plain;
mod run;
mod status;
mod tenants;
#[cfg(test)]
mod tests;
mod turn;
mod words;

use command::foldsql;
use mt_hostio::{FolderMachine, StdinSource};
use run::finish;
use status::Status;
use std::alloc::{AllocError, Global};
use std::process::ExitCode;
use words::words;

const USAGE: &str = "usage: foldsql WORD
  run      answers the lines of standard input on standard output; so far it makes tenants
  plain    answers them with the whole service so far, kept as plain lists in memory
";

/// How large a block is taken and given back at the start, in bytes.
const BLOCK: usize = 16 << 20;

// Takes a large block and gives it back. The C library's allocator then keeps up to twice as much of what was
// freed; else it gives the memory of a long line back to the system, which clears it anew for the next one, and
// that takes as long as reading the line. Where there is no such block only speed is lost.
fn keep_what_is_freed(alloc: Global) {
    let _ = Vec::<u8>::with_capacity(alloc, BLOCK);
}

fn main(rt: HostRuntime) -> ExitCode {
    let alloc = rt.alloc();
    keep_what_is_freed(alloc);
    let mut source = StdinSource::new(&rt);
    let mut machine = FolderMachine::new(&rt);
    let status = match words(&rt) {
        Ok(words) => foldsql(&rt, alloc, &words, &mut source, &mut machine),
        Err(AllocError) => finish(Status::NoMemory, &mut machine).code(),
    };
    if status == Status::Words.code() {
        // There is nobody to tell where this fails too.
        let _ = rt.eprint(USAGE);
    }
    ExitCode::from(status)
}
