ghost use Rattle.std.specs.Prelude.{◌≡◌, ℕ, ◌+◌, ◌-◌, ◌<◌, ◌≤◌, ◌^◌, [], ◌∷◌, ◌++◌, length, drop, slice_get, option_map, vec_len, All, IfOk, OnOk, OnErr};
ghost use Rattle.byteorder.specs.Endian.{little_bytes};
ghost use Rattle.mt_journal.specs.Spelling.{spelling_of, spelling_of_range, range_from, HasRange, Fits};

use byteorder::{ByteOrder, LittleEndian};
use std::alloc::{AllocError, Global};
use std::marker::Model;

// A payload begins with the count of its ranges, and a range with its position and its length.
const HEAD_SIZE: usize = 12;

/// The ranges of one group: each a position in the pages and the bytes that are to stand there. They
/// are kept as the payload that the journal writes, so that a commit takes no memory.
#[derive(Debug, Drop)]
pub struct Body {
    payload: Vec<u8>,
    // where each range starts in the payload
    starts: Vec<usize>,
}

impl Model for Body {
    ghost use Rattle.std.specs.Prelude.{List};
    ghost use Rattle.mt_journal.specs.Layout.{Range};

    ghost Value = { List Range };

    ghost use Rattle.mt_journal.specs.Spelling.{ranges_of, IsSpelled};

    ghost view = { λ body. ranges_of body.payload.items body.starts.items };

    ghost invariant = { λ body. IsSpelled body.payload.items body.starts.items };
}

impl Body {
    ghost use Rattle.mt_journal.specs.Layout.{Range};
    ghost use Rattle.mt_journal.specs.Commits.{payload_size};

    /// A body of no ranges. `AllocError` is want of memory.
    pub fn new(alloc: Global) -> Result<Body, AllocError>
        ensures { IfOk result (λ body. body ≡ []) }
    {
        let payload = Vec::from_slice(alloc, &[0, 0, 0, 0])?;
        Ok(Body {
            payload,
            starts: Vec::new(alloc),
        })
    }

    /// Adds a range at the end. `AllocError` is want of memory, and leaves the body as it was.
    pub fn push(&mut self, at: u64, bytes: &[u8]) -> Result<(), AllocError>
        requires within { at + length bytes.now ≤ 2 ^ 40 }
        requires short { length bytes.now < 2 ^ 32 }
        requires room { length self.old < 2 ^ 32 - 1 }
        ensures ok { OnOk result (self.new ≡ self.old ++ record { position = at; bytes = bytes.now } ∷ []) }
        ensures err { OnErr result (self.new ≡ self.old) }
    {
        self.starts.reserve(1)?;
        let start = self.payload.len();
        append_range(&mut self.payload, at, bytes)?;
        self.starts.push_reserved(start);
        set_count(&mut self.payload, self.starts.len() as u32);
        Ok(())
    }

    /// Takes the last range away. It takes no memory.
    pub fn pop(&mut self)
        requires { 1 ≤ length self.old }
        ensures { (range : Range) × (self.old ≡ self.new ++ range ∷ []) }
    {
        match self.starts.pop() {
            Some(start) => {
                self.payload.truncate(start);
                set_count(&mut self.payload, self.starts.len() as u32);
            }
            None => unreachable!(),
        }
    }

    /// The number of ranges.
    pub fn len(&self) -> usize
        ensures { result ≡ length self.now }
    {
        self.starts.len()
    }

    /// How many bytes the ranges take in the log: those of the payload of their group.
    pub fn size(&self) -> usize
        ensures { result ≡ payload_size self.now }
    {
        self.payload.len()
    }

    /// The position in the pages of range `i`, counted from 0.
    pub fn position(&self, i: usize) -> u64
        requires { i < length self.now }
        ensures { option_map (λ range. range.position) (slice_get self.now i) ≡ Some result }
    {
        let start = self.starts[i];
        position_from(&self.payload, start)
    }

    /// The bytes of range `i`, counted from 0.
    pub fn bytes(&self, i: usize) -> &[u8]
        requires { i < length self.now }
        ensures { option_map (λ range. range.bytes) (slice_get self.now i) ≡ Some result.now }
    {
        let start = self.starts[i];
        bytes_from(&self.payload, start)
    }

    // The payload as the journal writes it.
    pub(crate) fn payload(&self) -> &[u8]
        ensures spells { result.now ≡ spelling_of self.now }
        ensures fit { All Fits self.now }
        ensures few { length self.now < 2 ^ 32 }
    {
        self.payload.as_slice()
    }
}

// The position of the range that starts at this place.
fn position_from(payload: &[u8], start: usize) -> u64
    requires { HasRange payload.now start }
    ensures { result ≡ (range_from payload.now start).position }
{
    LittleEndian::read_u64(&payload[start..])
}

// The bytes of the range that starts at this place.
fn bytes_from(payload: &[u8], start: usize) -> &[u8]
    requires { HasRange payload.now start }
    ensures { result.now ≡ (range_from payload.now start).bytes }
{
    let size = LittleEndian::read_u32(&payload[start + 8..]) as usize;
    &payload[start + HEAD_SIZE..start + HEAD_SIZE + size]
}

// Puts a range behind a payload, whole or not at all.
fn append_range(payload: &mut Vec<u8>, at: u64, bytes: &[u8]) -> Result<(), AllocError>
    requires { length bytes.now < 2 ^ 32 }
    ensures ok { OnOk result (payload.new.items ≡ payload.old.items ++ spelling_of_range (record { position = at; bytes = bytes.now })) }
    ensures err { OnErr result (payload.new.items ≡ payload.old.items) }
{
    let mut position = [0; 8];
    LittleEndian::write_u64(&mut position, at);
    let mut length = [0; 4];
    LittleEndian::write_u32(&mut length, bytes.len() as u32);
    payload.reserve(HEAD_SIZE + bytes.len())?;
    payload.extend_from_slice(&position)?;
    payload.extend_from_slice(&length)?;
    payload.extend_from_slice(bytes)?;
    Ok(())
}

// Writes the count of ranges at the head of a payload.
fn set_count(payload: &mut Vec<u8>, count: u32)
    requires { 4 ≤ vec_len payload.old }
    ensures { payload.new.items ≡ little_bytes 4 count ++ drop 4 payload.old.items }
{
    LittleEndian::write_u32(payload, count);
}
