//! Commits groups to the files of the current folder, each of one range of 100 bytes: what the
//! journal alone costs. `bench/commit.sh` times it. The word after the program's name is the number
//! of groups, at most 100,000; none stands for 1. It promises only what the journal does.
#![tactic(auto)]

ghost use Rattle.std.specs.Prelude.{◌≡◌, ◌^◌, ◌≤◌, IfOk, OnOk};
ghost use Rattle.mt_journal.specs.Commits.{StandsFor, payload_size};

use mt_hostio::FolderMachine;
use mt_journal::{Body, Journal};
use mt_machine::{Failed, Machine};
use std::alloc::{AllocError, Global};
use std::process::ExitCode;
use std::rt::Env;
use std::{env, io};

/// The most groups that are committed in one call.
const GROUPS_MAX: u32 = 100_000;

// A group of one range of 100 bytes at the front of the pages.
fn small_body(alloc: Global) -> Result<Body, AllocError>
    ensures { IfOk result (λ body. payload_size body ≤ 2 ^ 41) }
{
    let mut body = Body::new(alloc)?;
    body.push(0, &[7; 100])?;
    Ok(body)
}

// Commits one group, in an emptied log where that is long.
fn commit_one<M: Machine>(journal: &mut Journal, m: &mut M, body: &Body) -> Result<(), Failed>
    requires stands { StandsFor journal.old (M.meaning m.old) }
    requires size { payload_size body.now ≤ 2 ^ 41 }
    ensures { OnOk result (StandsFor journal.new (M.meaning m.new)) }
{
    if journal.needs_reset() {
        journal.reset(m)?;
    }
    journal.commit(m, body)
}

// The number of groups that the words ask for.
fn groups<R: Env + AllocGlobal>(rt: &R) -> io::Result<u32> {
    for word in env::args(rt)?.skip(1) {
        return Ok(word.parse().unwrap_or(1).min(GROUPS_MAX));
    }
    Ok(1)
}

// Recovers the journal and commits the group so many times; whether nothing failed.
fn commit_all<M: Machine>(m: &mut M, body: &Body, count: u32) -> bool
    requires { payload_size body.now ≤ 2 ^ 41 }
{
    let Ok(mut journal) = Journal::recover(m) else {
        return false;
    };
    for _ in 0..count {
        if commit_one(&mut journal, m, body).is_err() {
            return false;
        }
    }
    true
}

fn main(rt: HostRuntime) -> ExitCode {
    let count = groups(&rt).unwrap_or(1);
    let Ok(body) = small_body(rt.alloc()) else {
        return ExitCode::FAILURE;
    };
    let mut machine = FolderMachine::new(&rt);
    if commit_all(&mut machine, &body, count) {
        ExitCode::SUCCESS
    } else {
        ExitCode::FAILURE
    }
}
