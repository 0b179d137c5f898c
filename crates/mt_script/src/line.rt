ghost use Rattle.std.specs.Prelude.{◌≡◌, ◌≤◌, length, false, take};
ghost use Rattle.mt_script.specs.Lines.{has_line_feed};
ghost use Rattle.mt_script.specs.Steps.{FindsFeed, FindsEnd};

use memchr::memchr;

/// A line has no more bytes than these, a carriage return at its end counted.
pub const LONGEST: usize = 65_536;

/// Where the first line feed is. The first `searched` bytes are known to have none.
pub fn find_feed(bytes: &[u8], searched: usize) -> Option<usize>
    requires within { searched ≤ length bytes.now }
    requires none_searched { has_line_feed (take searched bytes.now) ≡ false }
    ensures { FindsFeed bytes.now result }
{
    let found = memchr(b'\n', &bytes[searched..])?;
    Some(searched + found)
}

/// How many bytes of a line are given out: all but one carriage return at its end. `None` is a
/// line that is too long.
pub fn find_end(line: &[u8]) -> Option<usize>
    ensures { FindsEnd line.now result }
{
    if line.len() > LONGEST {
        return None;
    }
    if line.is_empty() {
        return Some(0);
    }
    let last = line.len() - 1;
    if line[last] == b'\r' {
        Some(last)
    } else {
        Some(line.len())
    }
}
