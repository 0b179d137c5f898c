ghost use Rattle.std.specs.Prelude.{◌≡◌, ◌≤◌, length, IfOk};

use mt_machine::{Failed, Source};
use std::io;
use std::io::Read;

/// Standard input. Each failed read adds one to the count of faults.
#[derive(Drop)]
pub struct StdinSource<I> {
    reader: I,
    faults: u64,
}

impl<I: Read + Drop> StdinSource<I> {
    /// A source over what the runtime value gives as standard input. It reads nothing.
    pub fn new<R: Input<Reader = I>>(rt: &R) -> StdinSource<I>
        ensures { result.faults ≡ 0 }
    {
        StdinSource {
            reader: rt.reader(),
            faults: 0,
        }
    }
}

// The next bytes; a read that a signal interrupts is made again.
fn read_some<I: Read>(reader: &mut I, buf: &mut [u8]) -> io::Result<usize>
    ensures { IfOk result (λ count. count ≤ length buf.new) }
{
    for _ in 0..u64::MAX {
        match reader.read(buf) {
            Err(e) if e.kind() == io::ErrorKind::Interrupted => {}
            outcome => return outcome,
        }
    }
    Err(io::ErrorKind::Interrupted.into())
}

impl<I: Read + Drop> Source for StdinSource<I> {
    ghost use Rattle.std.specs.Prelude.{false, []};

    ghost supply = { λ s. record { tells = false; left = []; last = []; takes = 0; faults = s.faults } };

    fn take(&mut self, buf: &mut [u8]) -> Result<usize, Failed> {
        match read_some(&mut self.reader, buf) {
            Ok(count) => Ok(count),
            Err(_) => {
                self.faults = self.faults.saturating_add(1);
                Err(Failed)
            }
        }
    }
}
