use super::call;
use mt_machine::{Area, Failed, Machine, Source};
use mt_script::silent;
use std::alloc::Global;
use std::cell::Cell;
use std::rc::Rc;
use std::test::Fail;

/// How many replies were put out.
type Replies = Rc<Cell<usize>>;

/// Gives an input in pieces of one size. It fails where it is asked before each whole line that it gave
/// has its reply.
#[derive(Drop)]
struct AskedInTurn<'a> {
    input: &'a [u8],
    given: usize,
    size: usize,
    replies: Replies,
    faults: u64,
}

/// A machine that counts what it puts out, and tells nothing.
#[derive(Drop)]
struct Counter {
    replies: Replies,
}

/// How many lines that get a reply have ended.
fn ended_lines(bytes: &[u8]) -> usize {
    let answered = |line: &&[u8]| !silent(line);
    let all = bytes.split(|byte| *byte == b'\n').filter(answered).count();
    let last = bytes.rsplit(|byte| *byte == b'\n').take(1);
    all.saturating_sub(last.filter(answered).count())
}

impl Source for AskedInTurn<'_> {
    ghost use Rattle.std.specs.Prelude.{false, []};

    ghost supply = { λ source. record { tells = false; left = []; last = []; takes = 0; faults = source.faults } };

    fn take(&mut self, buf: &mut [u8]) -> Result<usize, Failed> {
        let left = self.input.get(self.given..).unwrap_or(b"");
        let given = self.input.get(..self.given).unwrap_or(b"");
        if self.replies.get() < ended_lines(given) {
            self.faults = self.faults.saturating_add(1);
            return Err(Failed);
        }
        let count = self.size.min(buf.len()).min(left.len());
        buf[..count].copy_from_slice(&left[..count]);
        self.given = self.given.saturating_add(count);
        Ok(count)
    }
}

impl Machine for Counter {
    ghost use Rattle.std.specs.Prelude.{false, []};
    ghost use Rattle.mt_machine.specs.Image.{blank_disk};

    ghost meaning = { λ _. record { tells = false; content = blank_disk; output = []; tells_moments = false; images = λ _. ⊥; clock = 0; since = λ _ _ _. ⊥; disk_faults = 0; emit_faults = 0 } };

    ghost beneath = { λ _ _. Unit {0} };

    fn read(&mut self, _area: Area, _at: u64, _buf: &mut [u8]) -> Result<(), Failed> {
        Ok(())
    }

    fn write(&mut self, _area: Area, _at: u64, _bytes: &[u8]) -> Result<(), Failed> {
        Ok(())
    }

    fn sync(&mut self) -> Result<(), Failed> {
        Ok(())
    }

    fn emit(&mut self, _bytes: &[u8]) -> Result<(), Failed> {
        self.replies.set(self.replies.get().saturating_add(1));
        Ok(())
    }

    ghost beneath_itself = { λ _. tt };

    ghost beneath_both = { λ _ _ _ _ _. tt };

    ghost moments_told = { λ _ told. told };

    ghost content_is_image = { λ _ told. absurd (Prim.cc) };

    ghost counts_now = { λ _ _ _ told _ _. absurd (Prim.cc) };

    ghost only_now = { λ _ _ _ told _. absurd (Prim.cc) };
}

#[test]
fn answers_each_line_before_it_asks_for_more(rt: HostRuntime) -> Result<(), Fail> {
    let alloc = rt.alloc();
    let input = b"@admin CREATE TENANT 1 QUOTA 1\n\n-- note\nx\n@1 SELECT a FROM t\nlast";
    for word in ["run", "plain"] {
        for size in [1, 3, 7, 31, 32, 80] {
            let replies = Rc::new(alloc, Cell::new(0))?;
            let mut source = AskedInTurn {
                input,
                given: 0,
                size,
                replies: replies.clone()?,
                faults: 0,
            };
            let mut machine = Counter {
                replies: replies.clone()?,
            };
            let status = call(&rt, alloc, word, &mut source, &mut machine)?;
            assert_eq!(rt; status, 0, "{word} {size}");
            assert_eq!(rt; replies.get(), 4, "{word} {size}");
        }
    }
    Ok(())
}
