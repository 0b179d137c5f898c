ghost use Rattle.std.specs.Prelude.{◌≡◌, IsTrue, ◌↔◌};
ghost use Rattle.mt_machine.specs.Faults.{one_more};

use crate::{CallKind, FailList};

/// How many calls of each kind were made. A count stands still at the last value of its type.
#[derive(Debug, Drop)]
pub struct Counts {
    reads: u64,
    writes: u64,
    syncs: u64,
    emits: u64,
    takes: u64,
}

impl Counts {
    ghost use Rattle.mt_machine.specs.Schedule.{count_of, no_calls, CountsOne};

    /// No call was made yet.
    pub fn new() -> Counts
        ensures { result ≡ no_calls }
    {
        Counts {
            reads: 0,
            writes: 0,
            syncs: 0,
            emits: 0,
            takes: 0,
        }
    }

    /// Counts one more call of this kind, and answers which it is.
    pub fn count(&mut self, kind: CallKind) -> u64
        ensures ordinal { result ≡ count_of self.new kind }
        ensures counted { CountsOne kind self.old self.new }
    {
        match kind {
            CallKind::Read => add_one(&mut self.reads),
            CallKind::Write => add_one(&mut self.writes),
            CallKind::Sync => add_one(&mut self.syncs),
            CallKind::Emit => add_one(&mut self.emits),
            CallKind::Take => add_one(&mut self.takes),
        }
    }
}

/// Adds one, and answers the sum.
fn add_one(count: &mut u64) -> u64
    ensures answer { result ≡ count.new }
    ensures sum { count.new ≡ one_more count.old }
{
    *count = count.saturating_add(1);
    *count
}

/// The calls that are to fail, and the calls made so far.
#[derive(Debug, Drop)]
pub struct Schedule {
    fails: FailList,
    counts: Counts,
}

impl Schedule {
    ghost use Rattle.mt_machine.specs.Schedule.{IsUncalled, FailsNext, CountsCall};

    /// The calls that are to fail, none of them made yet.
    pub fn new(fails: FailList) -> Schedule
        ensures { IsUncalled fails result }
    {
        Schedule {
            fails,
            counts: Counts::new(),
        }
    }

    /// Counts one more call of this kind, and answers whether it is to fail.
    pub fn fails_now(&mut self, kind: CallKind) -> bool
        ensures fails { IsTrue result ↔ FailsNext self.old kind }
        ensures counted { CountsCall kind self.old self.new }
    {
        let nth = self.counts.count(kind);
        self.fails.names(kind, nth)
    }
}
