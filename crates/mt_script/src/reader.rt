ghost use Rattle.std.specs.Prelude.{◌≡◌, IfOk};

use crate::line::{find_end, find_feed};
use crate::piece::{keep_short, take_piece};
use mt_machine::Source;
use std::alloc::{AllocError, Global};
use std::marker::Model;
use thiserror::Error;

/// What a reader gave out.
#[derive(Clone, Copy, Debug, PartialEq, Eq)]
pub enum Took {
    /// A line, which `LineReader::line` lends.
    Line,
    /// A line of more than 65,536 bytes, which was skipped.
    TooLong,
    /// The input has ended, and each line was given out.
    End,
}

/// Why a reader gave out no line.
#[derive(Clone, Copy, Debug, PartialEq, Eq, Error)]
pub enum ReadStop {
    /// The source failed.
    #[error("the input failed")]
    Source,
    /// As many bytes were taken as the budget allows, and the input has not ended.
    #[error("the input is too long")]
    Budget,
}

/// Cuts an input into lines, and keeps what it took and has not given out.
#[derive(Debug, Drop)]
pub struct LineReader {
    buffer: Vec<u8>,
    // What is held stands in `buffer[from..upto]`.
    from: usize,
    upto: usize,
    // So many of the held bytes are known to have no line feed: none is searched twice, however
    // small the pieces are.
    searched: usize,
    // The line that was given out last stands in `buffer[line_from..line_upto]`.
    line_from: usize,
    line_upto: usize,
    budget: u64,
    ended: bool,
}

/// Room for a line that is just too long and a piece about as long.
const CAPACITY: usize = 131_072;

impl Model for LineReader {
    ghost use Rattle.std.specs.Prelude.{slice_range};
    ghost use Rattle.mt_script.specs.Reader.{Reading};
    ghost use Rattle.mt_script.specs.Steps.{IsPlaced};

    ghost Value = { Reading };

    ghost view = { λ r. record { held = slice_range r.buffer.items r.from r.upto; budget = r.budget; ended = r.ended; line = slice_range r.buffer.items r.line_from r.line_upto } };

    ghost invariant = { λ r. IsPlaced r.buffer.items r.from r.upto r.searched r.line_from r.line_upto };
}

impl LineReader {
    ghost use Rattle.std.specs.Prelude.{◌≤◌, length, false};
    ghost use Rattle.mt_script.specs.Lines.{has_line_feed};
    ghost use Rattle.mt_script.specs.Reader.{fresh, Nexts};
    ghost use Rattle.mt_script.specs.Steps.{LooksFor, LetsGo, TakesOn, ComesOrStops};

    /// A reader that takes at most `budget` bytes. It takes all its memory here.
    pub fn new(alloc: Global, budget: u64) -> Result<LineReader, AllocError>
        ensures { IfOk result (λ reader. reader ≡ fresh budget) }
    {
        Ok(LineReader {
            buffer: vec![in alloc; 0; CAPACITY]?,
            from: 0,
            upto: 0,
            searched: 0,
            line_from: 0,
            line_upto: 0,
            budget,
            ended: false,
        })
    }

    /// Gives out the next line. It takes bytes from the source, in pieces, only while it holds no
    /// whole line. `Err(Source)` is a take that failed, and with any other answer none did;
    /// `Err(Budget)` is a spent budget. After `Err` each whole line that was taken has been given
    /// out, and a later call goes on from what was taken.
    pub fn next<S: Source>(&mut self, source: &mut S) -> Result<Took, ReadStop>
        ensures { Nexts result self.old self.new (S.supply source.old) (S.supply source.new) }
    {
        loop {
            match self.give_out() {
                Some(took) => return Ok(took),
                None => self.fill(source)?,
            }
        }
    }

    /// The line that was given out last, without its line feed and a carriage return before that.
    pub fn line(&self) -> &[u8]
        ensures { result.now ≡ self.now.line }
    {
        &self.buffer[self.line_from..self.line_upto]
    }

    /// The next line out of what is held. `None`: more bytes are needed.
    fn give_out(&mut self) -> Option<Took>
        ensures { LooksFor result self.old self.new }
    {
        let held = &self.buffer[self.from..self.upto];
        let size = held.len();
        match find_feed(held, self.searched) {
            Some(at) => Some(self.let_go(at, at + 1)),
            None if !self.ended => None,
            None if size == 0 => Some(Took::End),
            None => Some(self.let_go(size, size)),
        }
    }

    /// Gives out the first `size` of the held bytes as a line, and lets go of the first `used`.
    fn let_go(&mut self, size: usize, used: usize) -> Took
        requires line { size ≤ used }
        requires within { used ≤ length self.old.held }
        ensures { LetsGo result size used self.old self.new }
    {
        let start = self.from;
        let end = find_end(&self.buffer[start..start + size]);
        self.from = start + used;
        self.searched = 0;
        match end {
            Some(end) => {
                self.line_from = start;
                self.line_upto = start + end;
                Took::Line
            }
            None => Took::TooLong,
        }
    }

    /// Takes the next piece of the input.
    fn fill<S: Source>(&mut self, source: &mut S) -> Result<(), ReadStop>
        requires unended { has_line_feed self.old.held ≡ false }
        requires not_ended { self.old.ended ≡ false }
        ensures takes { TakesOn self.old self.new (S.supply source.old) (S.supply source.new) }
        ensures outcome { ComesOrStops result self.old self.new (S.supply source.old).faults (S.supply source.new).faults }
    {
        let kept = keep_short(&mut self.buffer, self.from, self.upto);
        self.from = 0;
        self.upto = kept;
        self.searched = kept;
        self.line_from = 0;
        self.line_upto = 0;
        if self.budget == 0 {
            return Err(ReadStop::Budget);
        }
        let taken = take_piece(source, &mut self.buffer, kept, self.budget)?;
        self.upto = kept + taken;
        self.budget -= taken as u64;
        self.ended = taken == 0;
        Ok(())
    }
}
