use crate::{
    Area, Bytes, CallKind, FailList, Failed, Fill, Machine, MemMachine, MemSource, QuietMachine,
    Source, SteadyMachine, SteadySource,
};
use mt_list::List;
use std::alloc::{AllocError, Global};
use std::test::Fail;

const KINDS: [CallKind; 4] = [
    CallKind::Read,
    CallKind::Write,
    CallKind::Sync,
    CallKind::Emit,
];

fn list_of(alloc: Global, bytes: &[u8]) -> Result<Bytes, AllocError> {
    Ok(List::from_vec(Vec::from_slice(alloc, bytes)?))
}

fn fail_list(alloc: Global, kind: CallKind, nth: u64) -> Result<FailList, AllocError> {
    let mut fails = FailList::new(alloc);
    fails.push(kind, nth)?;
    Ok(fails)
}

/// One call of each kind, and which of them failed, in the order of `KINDS`.
fn call_each<M: Machine>(machine: &mut M) -> [bool; 4] {
    let mut buf = [9; 4];
    [
        machine.read(Area::Log, 0, &mut buf).is_err(),
        machine.write(Area::Log, 1, b"abcd").is_err(),
        machine.sync().is_err(),
        machine.emit(b"out;").is_err(),
    ]
}

/// Six bytes of the log from 0 on, read into a buffer that held other bytes.
fn read_log<M: Machine>(machine: &mut M) -> Result<[u8; 6], Failed> {
    let mut buf = [9; 6];
    machine.read(Area::Log, 0, &mut buf)?;
    Ok(buf)
}

/// What two takes of at most four bytes give.
fn take_twice<S: Source>(
    source: &mut S,
) -> (Result<usize, Failed>, Result<usize, Failed>, [u8; 4]) {
    let mut buf = [9; 4];
    let first = source.take(&mut buf);
    let second = source.take(&mut buf);
    (first, second, buf)
}

#[test]
fn fails_are_named(rt: HostRuntime) -> Result<(), Fail> {
    let fails = fail_list(rt.alloc(), CallKind::Sync, 2)?;
    assert!(rt; fails.names(CallKind::Sync, 2));
    assert!(rt; !fails.names(CallKind::Sync, 1));
    assert!(rt; !fails.names(CallKind::Read, 2));
    Ok(())
}

#[test]
fn steady_machine_holds_what_is_written(rt: HostRuntime) -> Result<(), Fail> {
    let alloc = rt.alloc();
    let mut machine = SteadyMachine::from_image(
        alloc,
        list_of(alloc, b"xyz")?,
        list_of(alloc, b"p")?,
    );
    assert_eq!(rt; call_each(&mut machine), [false; 4]);
    assert_eq!(rt; read_log(&mut machine)?, *b"xabcd\0");
    assert_eq!(rt; machine.log(), b"xabcd".as_slice());
    assert_eq!(rt; machine.pages(), b"p".as_slice());
    assert_eq!(rt; machine.output(), b"out;".as_slice());
    assert!(rt; machine.telling());
    assert!(rt; SteadyMachine::new(alloc).log().is_empty());
    Ok(())
}

#[test]
fn quiet_machine_holds_what_is_written(rt: HostRuntime) -> Result<(), Fail> {
    let mut machine = QuietMachine::new(rt.alloc());
    assert_eq!(rt; call_each(&mut machine), [false; 4]);
    assert_eq!(rt; read_log(&mut machine)?, *b"\0abcd\0");
    assert_eq!(rt; machine.log(), b"\0abcd".as_slice());
    assert!(rt; machine.pages().is_empty());
    assert_eq!(rt; machine.output(), b"out;".as_slice());
    assert!(rt; machine.telling());
    Ok(())
}

#[test]
fn named_calls_fail(rt: HostRuntime) -> Result<(), Fail> {
    let alloc = rt.alloc();
    for kind in KINDS {
        let mut machine = MemMachine::new(alloc, fail_list(alloc, kind, 2)?);
        assert_eq!(rt; call_each(&mut machine), [false; 4]);
        assert_eq!(rt;
            call_each(&mut machine),
            KINDS.map(|other| other == kind),
            "at {kind:?}"
        );
        assert_eq!(rt; call_each(&mut machine), [false; 4]);
    }
    Ok(())
}

#[test]
fn failed_calls_do_half(rt: HostRuntime) -> Result<(), Fail> {
    let alloc = rt.alloc();
    let mut fails = fail_list(alloc, CallKind::Write, 1)?;
    fails.push(CallKind::Emit, 1)?;
    let mut machine = MemMachine::from_image(alloc, List::new(alloc), list_of(alloc, b"p")?, fails);
    assert_eq!(rt; call_each(&mut machine), [false, true, false, true]);
    assert_eq!(rt; read_log(&mut machine)?, *b"\0ab\0\0\0");
    assert_eq!(rt; machine.log(), b"\0ab".as_slice());
    assert_eq!(rt; machine.pages(), b"p".as_slice());
    assert_eq!(rt; machine.output(), b"ou".as_slice());
    assert!(rt; machine.telling());
    Ok(())
}

/// Eight calls, of which the third write and the second sync are to fail.
fn run_of_calls(machine: &mut MemMachine) -> [bool; 8] {
    let mut buf = [9; 2];
    [
        machine.write(Area::Log, 0, b"ab").is_err(),
        machine.sync().is_err(),
        machine.write(Area::Pages, 3, b"cd").is_err(),
        machine.write(Area::Log, 1, b"wxyz").is_err(),
        machine.sync().is_err(),
        machine.emit(b"x").is_err(),
        machine.sync().is_err(),
        machine.read(Area::Log, 0, &mut buf).is_err(),
    ]
}

/// What a stop within each of those calls leaves: the log, the pages and the output.
fn stops(fill: Fill) -> [[&'static [u8]; 3]; 8] {
    let last: [&'static [u8]; 3] = [b"awx", b"\0\0\0cd", b"x"];
    match fill {
        Fill::Kept => [
            [b"ab", b"", b""],
            [b"ab", b"", b""],
            [b"ab", b"\0\0\0cd", b""],
            [b"awx", b"\0\0\0cd", b""],
            [b"awx", b"\0\0\0cd", b""],
            [b"awx", b"\0\0\0cd", b""],
            last,
            last,
        ],
        Fill::Byte(_) => [
            [b"##", b"", b""],
            [b"##", b"", b""],
            [b"ab", b"\0\0\0##", b""],
            [b"a####", b"\0\0\0##", b""],
            [b"a####", b"\0\0\0##", b""],
            [b"a####", b"\0\0\0##", b""],
            [b"a####", b"\0\0\0##", b"x"],
            last,
        ],
    }
}

#[test]
fn stops_leave_what_was_written(rt: HostRuntime) -> Result<(), Fail> {
    let alloc = rt.alloc();
    let mut fails = fail_list(alloc, CallKind::Write, 3)?;
    fails.push(CallKind::Sync, 2)?;
    let mut machine = MemMachine::new(alloc, fails);
    assert_eq!(rt;
        run_of_calls(&mut machine),
        [false, false, false, true, true, false, false, false]
    );
    assert!(rt; machine.telling());
    assert_eq!(rt; machine.calls(), 8);
    for fill in [Fill::Kept, Fill::Byte(b'#')] {
        for (i, stop) in stops(fill).iter().enumerate() {
            let stopped = machine.stopped_in(i as u64 + 1, fill)?;
            assert_eq!(rt; stopped.log.as_slice(), stop[0], "{fill:?} {i}");
            assert_eq!(rt; stopped.pages.as_slice(), stop[1], "{fill:?} {i}");
            assert_eq!(rt; stopped.out.as_slice(), stop[2], "{fill:?} {i}");
        }
    }
    Ok(())
}

#[test]
fn sources_give_pieces(rt: HostRuntime) -> Result<(), Fail> {
    let alloc = rt.alloc();
    let mut steady = SteadySource::new(list_of(alloc, b"abcdef")?, 3);
    assert_eq!(rt; take_twice(&mut steady), (Ok(3), Ok(3), *b"def\x09"));
    assert_eq!(rt; take_twice(&mut steady), (Ok(0), Ok(0), [9; 4]));
    let fails = fail_list(alloc, CallKind::Take, 2)?;
    let mut source = MemSource::new(list_of(alloc, b"abcdef")?, 5, fails);
    assert_eq!(rt; take_twice(&mut source), (Ok(4), Err(Failed), *b"abcd"));
    assert_eq!(rt; source.left(), b"ef".as_slice());
    assert_eq!(rt; take_twice(&mut source), (Ok(2), Ok(0), *b"ef\x09\x09"));
    assert!(rt; steady.left().is_empty());
    Ok(())
}

#[test]
fn an_empty_write_takes_no_room(rt: HostRuntime) -> Result<(), Fail> {
    let mut machine = SteadyMachine::new(rt.alloc());
    machine.write(Area::Pages, 1 << 41, &[])?;
    assert!(rt; machine.telling());
    assert!(rt; machine.pages().is_empty());
    Ok(())
}
