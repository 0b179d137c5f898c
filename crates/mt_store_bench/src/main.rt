//! Puts slots into a table of the store and scans it, on the files of the current folder: what the store
//! alone costs. `bench/store.sh` times it. The words are `put N`, which puts N slots in groups of 1,000,
//! slot i being of tenant i % 100 + 1, with the Row i / 100 and the value i; `scan`, which scans the table
//! tenant by tenant and prints how many slots there are and the sum of their values; or both, in this
//! order. It promises only what the store does.
#![tactic(auto)]

mod put;
mod scan;
mod table;

ghost use Rattle.std.specs.Prelude.{◌≡◌, IfOk, IsTrue};
ghost use Rattle.mt_store_bench.specs.Numbers.{IsReady, IsSilent};

use anyhow::Result;
use mt_chunkstore::{Lent, Store};
use mt_hostio::FolderMachine;
use mt_machine::Machine;
use put::put_all;
use scan::{Found, scan_all};
use std::alloc::Global;
use std::env;
use table::{TABLE, layout};

/// The most slots that are put in one call.
const SLOTS_MAX: u32 = 10_000_000;

// Opens the store, and makes its table known.
fn open<M: Machine>(m: &mut M, alloc: Global) -> Result<Store>
    requires { IsSilent (M.meaning m.old) }
    ensures { IfOk result (λ store. IsReady store (M.meaning m.new)) }
{
    let mut store = Store::load(m, alloc)?;
    store.add_layout(m, TABLE, layout(alloc)?)?;
    Ok(store)
}

// How many slots the words ask to put.
fn slots_to_put(words: &[String]) -> u32 {
    match words {
        [put, count, ..] if put.as_str() == "put" => count.parse().unwrap_or(0).min(SLOTS_MAX),
        _ => 0,
    }
}

// Whether the words ask for a scan.
fn asks_scan(words: &[String]) -> bool {
    match words {
        [.., last] => last.as_str() == "scan",
        [] => false,
    }
}

// Puts so many slots, and scans where that is asked for.
fn put_and_scan<M: Machine>(
    m: &mut M,
    alloc: Global,
    count: u32,
    scans: bool,
) -> Result<Option<Found>>
    requires { IsSilent (M.meaning m.old) }
{
    let mut store = open(m, alloc)?;
    put_all(m, alloc, &mut store, count)?;
    if !scans {
        return Ok(None);
    }
    let mut lent = Lent {
        store: &mut store,
        machine: m,
    };
    let found = scan_all(alloc, &mut lent)?;
    Ok(Some(found))
}

fn main(rt: HostRuntime) -> Result<()> {
    let alloc = rt.alloc();
    let words: Vec<String> = env::args(&rt)?.skip(1).collect(alloc)?;
    let mut machine = FolderMachine::new(&rt);
    let found = put_and_scan(&mut machine, alloc, slots_to_put(&words), asks_scan(&words))?;
    if let Some(Found { slots, sum }) = found {
        println!(rt; "{slots} slots, whose values add up to {sum}")?;
    }
    Ok(())
}
