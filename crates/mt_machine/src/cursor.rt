ghost use Rattle.std.specs.Prelude.{◌≡◌, ◌≤◌, ◌<◌, [], ◌++◌, length, min, take, drop};
ghost use Rattle.mt_machine.specs.Faults.{one_more};

use crate::Bytes;
use crate::front::put_front;
use std::marker::Model;

/// Bytes that are given from the front on, in pieces of a limited length. Contracts see it as the
/// bytes still to come and the length of the longest piece.
#[derive(Debug, Drop)]
pub struct Cursor {
    bytes: Bytes,
    // The last piece stands in `bytes[from..at]`.
    from: usize,
    at: usize,
    piece: usize,
    // The count stands still at its last value.
    takes: u64,
}

impl Model for Cursor {
    ghost use Rattle.std.specs.Prelude.{◌≤◌, length, drop, slice_range};
    ghost use Rattle.mt_machine.specs.Pieces.{Pieces};

    ghost Value = { Pieces };

    ghost view = { λ cursor. record { left = drop cursor.at cursor.bytes; longest = cursor.piece; last = slice_range cursor.bytes cursor.from cursor.at; takes = cursor.takes } };

    ghost invariant = { λ cursor. (cursor.from ≤ cursor.at) × (cursor.at ≤ length cursor.bytes) × (1 ≤ cursor.piece) };
}

impl Cursor {
    /// The front of these bytes; `piece` is the most that one take gives, in bytes.
    pub fn new(bytes: Bytes, piece: usize) -> Cursor
        requires { 1 ≤ piece }
        ensures left { result.left ≡ bytes }
        ensures longest { result.longest ≡ piece }
        ensures last { result.last ≡ [] }
        ensures takes { result.takes ≡ 0 }
    {
        Cursor {
            bytes,
            from: 0,
            at: 0,
            piece,
            takes: 0,
        }
    }

    /// The bytes still to come.
    pub fn left(&self) -> &[u8]
        ensures { result.now ≡ self.now.left }
    {
        &self.bytes.as_slice()[self.at..]
    }

    /// Puts the next bytes at the front of `buf`, and answers how many: none only at the end.
    pub fn take(&mut self, buf: &mut [u8]) -> usize
        requires { 0 < length buf.old }
        ensures count { result ≤ length buf.new }
        ensures short { result ≤ self.old.longest }
        ensures moved { self.old.left ≡ take result buf.new ++ self.new.left }
        ensures end { result ≡ 0 → self.old.left ≡ [] }
        ensures longest { self.new.longest ≡ self.old.longest }
        ensures last { self.new.last ≡ take result buf.new }
        ensures takes { self.new.takes ≡ one_more self.old.takes }
    {
        let count = put_piece(buf, &self.bytes.as_slice()[self.at..], self.piece);
        self.from = self.at;
        self.at += count;
        self.takes = self.takes.saturating_add(1);
        count
    }

    /// Counts a take that failed: the last piece is none.
    pub fn miss(&mut self)
        ensures left { self.new.left ≡ self.old.left }
        ensures longest { self.new.longest ≡ self.old.longest }
        ensures last { self.new.last ≡ [] }
        ensures takes { self.new.takes ≡ one_more self.old.takes }
    {
        self.from = self.at;
        self.takes = self.takes.saturating_add(1);
    }
}

/// Puts what fits of the bytes at the front of `buf`, at most `piece` of them, and answers how many.
#[tactic(auto, using(crate::proofs::Pieces::piece_and_rest))]
fn put_piece(buf: &mut [u8], bytes: &[u8], piece: usize) -> usize
    ensures count { result ≡ min (min (length bytes.now) (length buf.new)) piece }
    ensures moved { take result buf.new ++ drop result bytes.now ≡ bytes.now }
{
    let count = bytes.len().min(buf.len()).min(piece);
    put_front(buf, &bytes[..count]);
    count
}
