ghost use Rattle.std.specs.Prelude.{◌≡◌, ◌+◌, ◌-◌, ◌<◌, ◌≤◌, length, min, take, drop, slice_range, IfOk, IfErr};
ghost use Rattle.mt_machine.specs.Calls.{Takes};

use crate::line::LONGEST;
use crate::reader::ReadStop;
use mt_machine::Source;

/// Moves what stands in `buffer[from..upto]` to the front, and answers how much of it was kept. Of
/// a line that is too long already no more is kept than decides that it is.
pub fn keep_short(buffer: &mut [u8], from: usize, upto: usize) -> usize
    requires ordered { from ≤ upto }
    requires within { upto ≤ length buffer.old }
    ensures count { result ≡ min 65537 (upto - from) }
    ensures bytes { take result buffer.new ≡ take 65537 (slice_range buffer.old from upto) }
{
    let kept = (LONGEST + 1).min(upto - from);
    if from > 0 {
        buffer.copy_within(from..from + kept, 0);
    }
    kept
}

/// Takes the next bytes of the source into `buffer[at..]`, and no more than the budget allows.
pub fn take_piece<S: Source>(
    source: &mut S,
    buffer: &mut [u8],
    at: usize,
    budget: u64,
) -> Result<usize, ReadStop>
    requires room { at < length buffer.old }
    requires some { 0 < budget }
    ensures kept { take at buffer.new ≡ take at buffer.old }
    ensures takes { Takes result (drop at buffer.new) (S.supply source.old) (S.supply source.new) }
    ensures in_budget { IfOk result (λ n. n ≤ budget) }
    ensures stop { IfErr result (λ e. e ≡ ReadStop.Source) }
{
    let room = buffer.len() - at;
    let most = if budget < room as u64 {
        budget as usize
    } else {
        room
    };
    match source.take(&mut buffer[at..at + most]) {
        Ok(n) => Ok(n),
        Err(_) => Err(ReadStop::Source),
    }
}
