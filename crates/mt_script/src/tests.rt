use crate::{
    LineReader, ReadStop, Tagged, Took, code_text, read_number, reply_bytes, silent, split_tag,
};
use mt_machine::{Failed, Source};
use mt_tree::{Code, Reply, Who};
use std::alloc::{AllocError, Global};
use std::test::Fail;

/// Gives a text in pieces of one size. It fails once, at the take with a given number, and wherever
/// it is asked while a line that it gave whole was not read.
#[derive(Drop)]
struct Pieces<'a> {
    left: &'a [u8],
    last: &'a [u8],
    size: usize,
    before_fault: u64,
    lines_given: usize,
    // The test counts them here.
    lines_read: usize,
    takes: u64,
    faults: u64,
}

impl<'a> Pieces<'a> {
    fn new(text: &'a [u8], size: usize) -> Pieces<'a> {
        Pieces {
            left: text,
            last: b"",
            size,
            before_fault: u64::MAX,
            lines_given: 0,
            lines_read: 0,
            takes: 0,
            faults: 0,
        }
    }
}

impl Source for Pieces<'_> {
    ghost use Rattle.std.specs.Prelude.{true};

    ghost supply = { λ pieces. record { tells = true; left = pieces.left.now; last = pieces.last.now; takes = pieces.takes; faults = pieces.faults } };

    fn take(&mut self, buf: &mut [u8]) -> Result<usize, Failed> {
        self.takes = self.takes.saturating_add(1);
        let now = self.before_fault == 0;
        self.before_fault = if now { u64::MAX } else { self.before_fault - 1 };
        if now || self.lines_read < self.lines_given {
            self.last = b"";
            self.faults = self.faults.saturating_add(1);
            return Err(Failed);
        }
        let count = self.size.max(1).min(buf.len()).min(self.left.len());
        self.last = &self.left[..count];
        buf[..count].copy_from_slice(self.last);
        self.left = &self.left[count..];
        let ends = self.last.iter().filter(|byte| **byte == b'\n').count();
        self.lines_given = self.lines_given.saturating_add(ends);
        Ok(count)
    }
}

/// Each answer of a reader until the end or a spent budget: a line as it is, and `|` behind each.
/// The source knows how many lines were read.
fn answers(alloc: Global, budget: u64, source: &mut Pieces) -> Result<Vec<u8>, AllocError> {
    let mut reader = LineReader::new(alloc, budget)?;
    let mut told = Vec::new(alloc);
    for _ in 0..100 {
        let took = reader.next(source);
        if took.is_ok() {
            source.lines_read = source.lines_read.saturating_add(1);
        }
        match took {
            Ok(Took::Line) => told.extend_from_slice(reader.line())?,
            Ok(Took::TooLong) => told.extend_from_slice(b"TOO LONG")?,
            Ok(Took::End) => break,
            Err(ReadStop::Source) => told.extend_from_slice(b"FAULT")?,
            Err(ReadStop::Budget) => {
                told.extend_from_slice(b"BUDGET")?;
                break;
            }
        }
        told.push(b'|')?;
    }
    Ok(told)
}

#[test]
fn cuts_lines(rt: HostRuntime) -> Result<(), Fail> {
    let cases = [
        ("a\n\nb\r\n--x\nlast", "a||b|--x|last|"),
        ("a\rb\n", "a\rb|"),
        ("a\r\r\nb\r", "a\r|b|"),
        ("\n", "|"),
        ("", ""),
    ];
    for (text, wanted) in cases {
        for size in [1, 2, 7, 100] {
            let mut source = Pieces::new(text.as_bytes(), size);
            let told = answers(rt.alloc(), 1_000, &mut source)?;
            assert_eq!(rt;
                told.as_slice(),
                wanted.as_bytes(),
                "{text} in pieces of {size}"
            );
        }
    }
    Ok(())
}

#[test]
fn skips_lines_too_long(rt: HostRuntime) -> Result<(), Fail> {
    let cases = [
        (65_536, "\nb\n", 65_536),
        (65_535, "\r\nb\n", 65_535),
        (65_536, "\r\nb\n", 8),
        (65_537, "\nb\n", 8),
        (200_000, "\nb\n", 8),
    ];
    for (count, behind, wanted) in cases {
        let mut text = vec![in rt.alloc(); b'x'; count]?;
        text.extend_from_slice(behind.as_bytes())?;
        for size in [50_000, 1_000_000] {
            let mut source = Pieces::new(text.as_slice(), size);
            let told = answers(rt.alloc(), 1_000_000, &mut source)?;
            let told = told.strip_suffix(b"|b|".as_slice()).ok_or("no next line")?;
            assert_eq!(rt; told.len(), wanted, "{count} bytes in pieces of {size}");
        }
    }
    Ok(())
}

#[test]
fn keeps_to_its_budget(rt: HostRuntime) -> Result<(), Fail> {
    let text = vec![in rt.alloc(); b'x'; 65]?;
    let mut source = Pieces::new(text.as_slice(), 10);
    let told = answers(rt.alloc(), 64, &mut source)?;
    assert_eq!(rt; told.as_slice(), b"BUDGET".as_slice());
    assert_eq!(rt; source.left.len(), 1);
    Ok(())
}

#[test]
fn loses_nothing_by_a_fault(rt: HostRuntime) -> Result<(), Fail> {
    let cases = [
        (0, "FAULT|ab|cd|"),
        (1, "FAULT|ab|cd|"),
        (2, "ab|FAULT|cd|"),
        (3, "ab|cd|FAULT|"),
    ];
    for (before_fault, wanted) in cases {
        let mut source = Pieces::new(b"ab\ncd\n", 2);
        source.before_fault = before_fault;
        let told = answers(rt.alloc(), 1_000, &mut source)?;
        assert_eq!(rt;
            told.as_slice(),
            wanted.as_bytes(),
            "a fault at take {before_fault}"
        );
    }
    Ok(())
}

#[test]
fn asks_only_while_no_whole_line_is_held(rt: HostRuntime) -> Result<(), Fail> {
    for size in [1, 2, 3, 6] {
        let mut source = Pieces::new(b"ab\ncd\n", size);
        let told = answers(rt.alloc(), 1_000, &mut source)?;
        assert_eq!(rt;
            told.as_slice(),
            b"ab|cd|".as_slice(),
            "in pieces of {size}"
        );
        assert_eq!(rt; source.faults, 0, "in pieces of {size}");
    }
    Ok(())
}

#[test]
fn tells_silent_lines(rt: HostRuntime) {
    let cases = [
        ("", true),
        (" ", true),
        ("\t \t", true),
        ("--", true),
        ("--x", true),
        (" --", false),
        ("-", false),
        ("x", false),
    ];
    for (line, wanted) in cases {
        assert_eq!(rt; silent(line.as_bytes()), wanted, "{line}");
    }
}

#[test]
fn names_refusals(rt: HostRuntime) {
    let cases = [
        (Code::LineTooLong, "error E01 line too long\n"),
        (Code::QuotaFull, "error E30 quota full\n"),
    ];
    for (code, wanted) in cases {
        assert_eq!(rt; code_text(code), wanted);
    }
    assert_eq!(rt;
        reply_bytes(&Reply::Refused(Code::Syntax)),
        b"error E10 syntax\n".as_slice()
    );
    assert_eq!(rt;
        reply_bytes(&Reply::Memory),
        b"error E90 no memory\n".as_slice()
    );
}

#[test]
fn splits_tags(rt: HostRuntime) {
    let seventeen = Some(Tagged {
        who: Who::Tenant(17),
        from: 3,
    });
    let admin = Some(Tagged {
        who: Who::Admin,
        from: 6,
    });
    let last = Some(Tagged {
        who: Who::Tenant(u32::MAX),
        from: 11,
    });
    let cases = [
        (b"@17 x".as_slice(), seventeen),
        (b"@17".as_slice(), seventeen),
        (b"@17\tx".as_slice(), seventeen),
        (b"@4294967295".as_slice(), last),
        (b"@admin".as_slice(), admin),
    ];
    for (line, wanted) in cases {
        assert_eq!(rt; split_tag(line), wanted, "{line:?}");
    }
}

#[test]
fn finds_no_tag(rt: HostRuntime) {
    let cases = [
        b"@0".as_slice(),
        b"@01".as_slice(),
        b"@4294967296".as_slice(),
        b"@17x".as_slice(),
        b"@17;".as_slice(),
        b"@17\rx".as_slice(),
        b"@Admin".as_slice(),
        b"@adminx".as_slice(),
        b"17 x".as_slice(),
        b"".as_slice(),
        b" @17".as_slice(),
        b"@17 \xff".as_slice(),
    ];
    for line in cases {
        assert_eq!(rt; split_tag(line), None, "{line:?}");
    }
}

#[test]
fn reads_numbers(rt: HostRuntime) {
    let cases = [
        ("0", Some(0)),
        ("17", Some(17)),
        ("18446744073709551615", Some(u64::MAX)),
        ("18446744073709551616", None),
        ("017", None),
        ("+17", None),
        ("-1", None),
        ("", None),
    ];
    for (digits, wanted) in cases {
        assert_eq!(rt; read_number(digits.as_bytes()), wanted, "{digits}");
    }
}
