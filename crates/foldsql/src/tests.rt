use crate::command::foldsql;
use mt_list::List;
use mt_machine::{
    Bytes, CallKind, FailList, Machine, MemMachine, MemSource, Source, SteadyMachine, SteadySource,
};
use std::alloc::{AllocError, Global};
use std::test::Fail;
use std::thread::Threads;

mod in_turn;
mod plain;
mod words;

/// How many bytes a source in memory gives at a time.
const PIECE: usize = 7;

fn bytes_of(alloc: Global, text: &[u8]) -> Result<Bytes, AllocError> {
    Ok(List::from_vec(Vec::from_slice(alloc, text)?))
}

/// Calls the program with this one word.
fn call<R: Threads + Sync, M: Machine, S: Source>(
    rt: &R,
    alloc: Global,
    word: &str,
    source: &mut S,
    machine: &mut M,
) -> Result<u8, AllocError> {
    let words = vec![in alloc; String::from_str(alloc, word)?]?;
    Ok(foldsql(rt, alloc, &words, source, machine))
}

/// What a run over this input puts out, where no call fails.
fn replies<R: Threads + Sync>(
    rt: &R,
    alloc: Global,
    word: &str,
    input: &[u8],
) -> Result<Vec<u8>, Fail> {
    let mut source = SteadySource::new(bytes_of(alloc, input)?, PIECE);
    let mut machine = SteadyMachine::new(alloc);
    if call(rt, alloc, word, &mut source, &mut machine)? != 0 {
        return Err("the run did not end as it should".into());
    }
    Ok(Vec::from_slice(alloc, machine.output())?)
}

#[test]
fn answers_lines(rt: HostRuntime) -> Result<(), Fail> {
    let cases = [
        ("", ""),
        (
            "@admin CREATE TENANT 17 QUOTA 100\n@admin CREATE TENANT 17 QUOTA 100\n",
            "ok\nerror E40 name exists\n",
        ),
        (
            "@admin CREATE TENANT 4294967295 QUOTA 65536\r\n\n \t\n-- note\n",
            "ok\n",
        ),
        (
            "--\nx\n@admin CREATE TENANT 1 QUOTA 1",
            "error E09 not served here\nok\n",
        ),
    ];
    for (input, wanted) in cases {
        let told = replies(&rt, rt.alloc(), "run", input.as_bytes())?;
        assert_eq!(rt; told.as_slice(), wanted.as_bytes(), "{input}");
    }
    Ok(())
}

#[test]
fn serves_one_form_alone(rt: HostRuntime) -> Result<(), Fail> {
    let lines = [
        "@admin create tenant 1 quota 1",
        "@admin CREATE  TENANT 1 QUOTA 1",
        "@admin CREATE TENANT 1 QUOTA 0",
        "@admin CREATE TENANT 1 QUOTA 65537",
        "@admin CREATE TENANT 0 QUOTA 1",
        "@admin CREATE TENANT 4294967296 QUOTA 1",
        "@admin CREATE TENANT 01 QUOTA 1",
        "@admin CREATE TENANT 1 QUOTA 01",
        "@admin CREATE TENANT 1 QUOTA 1 ",
        "@admin CREATE TENANT 1 QUOTA 1;",
        "@admin CREATE TENANT 99999999999999999999 QUOTA 1",
        "@admin CREATE TENANT  QUOTA 1",
    ];
    for line in lines {
        let told = replies(&rt, rt.alloc(), "run", line.as_bytes())?;
        assert_eq!(rt;
            told.as_slice(),
            b"error E09 not served here\n".as_slice(),
            "{line}"
        );
    }
    Ok(())
}

#[test]
fn adds_up_quotas(rt: HostRuntime) -> Result<(), Fail> {
    let mut input = Vec::new(rt.alloc());
    let mut wanted = Vec::new(rt.alloc());
    for tenant in 1..=16 {
        let line = format!(in rt.alloc(); "@admin CREATE TENANT {tenant} QUOTA 65536\n")?;
        input.extend_from_slice(line.as_bytes())?;
        wanted.extend_from_slice(b"ok\n")?;
    }
    input.extend_from_slice(b"@admin CREATE TENANT 16 QUOTA 1\n@admin CREATE TENANT 17 QUOTA 1\n")?;
    wanted.extend_from_slice(b"error E40 name exists\nerror E45 quotas too large\n")?;
    let told = replies(&rt, rt.alloc(), "run", &input)?;
    assert_eq!(rt; told.as_slice(), wanted.as_slice());
    Ok(())
}

#[test]
fn bounds_lines(rt: HostRuntime) -> Result<(), Fail> {
    let cases = [
        (
            b'x',
            65_536,
            "error E09 not served here\nerror E09 not served here\n",
        ),
        (
            b'x',
            65_537,
            "error E01 line too long\nerror E09 not served here\n",
        ),
        (b'-', 65_536, "error E09 not served here\n"),
        (
            b'-',
            65_537,
            "error E01 line too long\nerror E09 not served here\n",
        ),
    ];
    for (byte, count, wanted) in cases {
        let mut input = vec![in rt.alloc(); byte; count]?;
        input.extend_from_slice(b"\nnext\n")?;
        let told = replies(&rt, rt.alloc(), "run", &input)?;
        assert_eq!(rt; told.as_slice(), wanted.as_bytes(), "{count} bytes {byte}");
    }
    Ok(())
}

#[test]
fn refuses_other_words(rt: HostRuntime) -> Result<(), Fail> {
    let alloc = rt.alloc();
    for given in ["", "Run", "run run"] {
        let mut words = Vec::new(alloc);
        for word in given.split_whitespace() {
            words.push(String::from_str(alloc, word)?)?;
        }
        let mut source = SteadySource::new(bytes_of(alloc, b"x\n")?, PIECE);
        let mut machine = SteadyMachine::new(alloc);
        let status = foldsql(&rt, alloc, &words, &mut source, &mut machine);
        assert_eq!(rt; status, 2, "{given}");
        assert_eq!(rt; machine.output(), b"stopped words\n".as_slice(), "{given}");
        assert_eq!(rt; source.left(), b"x\n".as_slice(), "{given}");
    }
    Ok(())
}

#[test]
fn ends_where_an_emit_fails(rt: HostRuntime) -> Result<(), Fail> {
    let alloc = rt.alloc();
    let wanted = b"error E09 not served here\nok\nerror E40 name exists\n".as_slice();
    for (nth, least, most) in [(1, 0, 26), (2, 26, 29), (3, 29, 51)] {
        let input = b"x\n@admin CREATE TENANT 1 QUOTA 1\n@admin CREATE TENANT 1 QUOTA 1";
        let mut fails = FailList::new(alloc);
        fails.push(CallKind::Emit, nth)?;
        let mut source = SteadySource::new(bytes_of(alloc, input)?, PIECE);
        let mut machine = MemMachine::new(alloc, fails);
        let status = call(&rt, alloc, "run", &mut source, &mut machine)?;
        let output = machine.output();
        assert_eq!(rt; status, 5, "emit {nth}");
        assert!(rt; wanted.starts_with(output), "emit {nth}");
        assert!(rt; least <= output.len() && output.len() < most, "emit {nth}");
    }
    Ok(())
}

#[test]
fn ends_where_a_take_fails(rt: HostRuntime) -> Result<(), Fail> {
    let alloc = rt.alloc();
    for (nth, lines) in [(1, 0), (2, 1), (3, 3), (4, 4)] {
        let mut fails = FailList::new(alloc);
        fails.push(CallKind::Take, nth)?;
        let mut source = MemSource::new(
            bytes_of(alloc, b"x\nlonger\nx\nx x x\nlast")?,
            PIECE,
            fails,
        );
        let mut machine = SteadyMachine::new(alloc);
        let status = call(&rt, alloc, "run", &mut source, &mut machine)?;
        let mut wanted = Vec::new(alloc);
        for _ in 0..lines {
            wanted.extend_from_slice(b"error E09 not served here\n")?;
        }
        wanted.extend_from_slice(b"stopped source fault\n")?;
        assert_eq!(rt; status, 6, "take {nth}");
        assert_eq!(rt; machine.output(), wanted.as_slice(), "take {nth}");
    }
    Ok(())
}
