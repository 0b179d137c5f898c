ghost use Rattle.std.specs.Prelude.{◌<◌, length};
ghost use Rattle.mt_machine.specs.Meaning.{Supply};
ghost use Rattle.mt_machine.specs.Calls.{Takes};

use crate::Failed;

/// An input: bytes that come in order, in pieces of any size.
pub trait Source {
    /// The bytes still to come and what the last take gave, where the source tells them, and its
    /// count of faults.
    ghost supply: { Self → Supply };

    /// Puts the next bytes at the front of `buf`, and answers how many; 0 is the end of the input.
    /// It may answer fewer than `buf` has room for, as a terminal does that gives a line at a time.
    /// After `Failed` the bytes still to come are as before.
    fn take(&mut self, buf: &mut [u8]) -> Result<usize, Failed>
        requires { 0 < length buf.old }
        ensures { Takes result buf.new (supply self.old) (supply self.new) };
}
