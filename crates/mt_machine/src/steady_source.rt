ghost use Rattle.std.specs.Prelude.{◌≡◌, ◌≤◌, ◌<◌, IfOk, length};

use crate::cursor::Cursor;
use crate::{Bytes, Failed, Source};

/// Bytes in memory, of which no take fails.
#[derive(Debug, Drop)]
pub struct SteadySource {
    cursor: Cursor,
}

impl SteadySource {
    ghost use Rattle.mt_machine.specs.InMemory.{fresh_supply, steady_supply};

    /// The source of these bytes, which gives at most `piece` of them a take.
    pub fn new(bytes: Bytes, piece: usize) -> SteadySource
        requires { 1 ≤ piece }
        ensures supply { steady_supply result ≡ fresh_supply bytes }
        ensures piece { result.cursor.longest ≡ piece }
    {
        SteadySource {
            cursor: Cursor::new(bytes, piece),
        }
    }

    /// The bytes still to come.
    pub fn left(&self) -> &[u8]
        ensures { result.now ≡ (steady_supply self.now).left }
    {
        self.cursor.left()
    }
}

impl Source for SteadySource {
    ghost use Rattle.mt_machine.specs.InMemory.{steady_supply};
    ghost use Rattle.mt_machine.specs.Calls.{Takes};

    ghost supply = { steady_supply };

    fn take(&mut self, buf: &mut [u8]) -> Result<usize, Failed>
        requires { 0 < length buf.old }
        ensures effect { Takes result buf.new (steady_supply self.old) (steady_supply self.new) }
        ensures short { IfOk result (λ count. count ≤ self.old.cursor.longest) }
        ensures piece { self.new.cursor.longest ≡ self.old.cursor.longest }
    {
        Ok(self.cursor.take(buf))
    }
}
