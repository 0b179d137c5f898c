ghost use Rattle.std.specs.Prelude.{◌≡◌, ◌≤◌, ◌<◌, ◌↔◌, IsErr, IfOk, length};

use crate::cursor::Cursor;
use crate::schedule::Schedule;
use crate::{Bytes, CallKind, FailList, Failed, Source};

/// Bytes in memory, of which those takes fail that a list names.
#[derive(Debug, Drop)]
pub struct MemSource {
    cursor: Cursor,
    schedule: Schedule,
    faults: u64,
}

impl MemSource {
    ghost use Rattle.mt_machine.specs.InMemory.{fresh_supply, mem_supply};
    ghost use Rattle.mt_machine.specs.Schedule.{IsUncalled};

    /// The source of these bytes, which gives at most `piece` of them a take, and of which the
    /// named takes fail.
    pub fn new(bytes: Bytes, piece: usize, fails: FailList) -> MemSource
        requires { 1 ≤ piece }
        ensures supply { mem_supply result ≡ fresh_supply bytes }
        ensures piece { result.cursor.longest ≡ piece }
        ensures schedule { IsUncalled fails result.schedule }
    {
        MemSource {
            cursor: Cursor::new(bytes, piece),
            schedule: Schedule::new(fails),
            faults: 0,
        }
    }

    /// The bytes still to come.
    pub fn left(&self) -> &[u8]
        ensures { result.now ≡ (mem_supply self.now).left }
    {
        self.cursor.left()
    }
}

// A take fails exactly where the list of fails names it by its ordinal.
impl Source for MemSource {
    ghost use Rattle.mt_machine.specs.InMemory.{mem_supply};
    ghost use Rattle.mt_machine.specs.Calls.{Takes};
    ghost use Rattle.mt_machine.specs.Schedule.{FailsNext, CountsCall};

    ghost supply = { mem_supply };

    fn take(&mut self, buf: &mut [u8]) -> Result<usize, Failed>
        requires { 0 < length buf.old }
        ensures effect { Takes result buf.new (mem_supply self.old) (mem_supply self.new) }
        ensures short { IfOk result (λ count. count ≤ self.old.cursor.longest) }
        ensures piece { self.new.cursor.longest ≡ self.old.cursor.longest }
        ensures fails { IsErr result ↔ FailsNext self.old.schedule CallKind.Take }
        ensures counted { CountsCall CallKind.Take self.old.schedule self.new.schedule }
    {
        if self.schedule.fails_now(CallKind::Take) {
            self.cursor.miss();
            self.faults = self.faults.saturating_add(1);
            return Err(Failed);
        }
        Ok(self.cursor.take(buf))
    }
}
