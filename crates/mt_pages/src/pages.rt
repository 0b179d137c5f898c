ghost use Rattle.std.specs.Prelude.{◌≡◌, ◌+◌, ◌-◌, ◌*◌, ◌<◌, ◌≤◌, ◌^◌, ◌++◌, IsTrue, IsErrOf, IfOk, OnOk, OnErr, length};
ghost use Rattle.mt_machine.specs.Calls.{HasCause};
ghost use Rattle.mt_machine.specs.Leaves.{Looks};
ghost use Rattle.mt_machine.specs.declared.machine.Area.TheVariants as areas;
ghost use Rattle.mt_pages.specs.Control.{IsPageZero, page_ranges};
ghost use Rattle.mt_pages.specs.Standing.{Counts, LoadCause};
ghost use Rattle.mt_tables.specs.Pages.{bytes_at};

use crate::control::{CONTROL_SIZE, control_bytes, count_in};
use byteorder::{ByteOrder, LittleEndian};
use mt_journal::Body;
use mt_machine::{Area, Failed, Machine};
use std::alloc::AllocError;
use std::marker::Model;
use thiserror::Error;

/// The bytes of a page.
pub const PAGE_SIZE: usize = 4096;

/// Why page 0 was not read.
#[derive(Clone, Copy, Debug, PartialEq, Eq, Error)]
pub enum PagesFault {
    #[error("disk fault")]
    Disk,
    /// Page 0 is neither blank nor one that counts the pages.
    #[error("damaged page 0")]
    Damaged,
}

impl From<Failed> for PagesFault {
    ghost use Rattle.std.specs.Prelude.{◌≡◌};
    ghost use Rattle.mt_pages.specs.declared.pages.PagesFault.TheVariants as faults;

    ghost from_gives = { λ _ fault. fault ≡ faults.Disk };

    fn from(_: Failed) -> PagesFault {
        PagesFault::Disk
    }
}

/// The pages of the disk, which contracts see as their number, page 0 among them: from 1 to 2^28.
#[derive(Debug, Drop)]
pub struct Pages {
    count: u64,
}

impl Model for Pages {
    ghost use Rattle.std.specs.Prelude.{ℕ, ◌≤◌, ◌^◌};

    ghost Value = { ℕ };

    ghost view = { λ pages. pages.count };

    ghost invariant = { λ pages. (1 ≤ pages.count) × (pages.count ≤ 2 ^ 28) };
}

impl Pages {
    /// Reads page 0. `Disk` is a read that failed, and `Damaged` comes exactly where page 0 is damaged.
    /// Nothing is written.
    pub fn load<M: Machine>(m: &mut M) -> Result<Pages, PagesFault>
        ensures ok { IfOk result (λ pages. Counts pages (M.meaning m.new)) }
        ensures damaged { IsErrOf result PagesFault.Damaged → IsTrue (M.meaning m.new).tells → IsPageZero ((M.meaning m.new).content areas.Pages) → ⊥ }
        ensures looks { Looks (M.meaning m.old) (M.meaning m.new) }
        ensures cause { LoadCause result (M.meaning m.old).disk_faults (M.meaning m.new).disk_faults }
        ensures beneath { M.beneath m.old m.new }
    {
        let mut bytes = [0; CONTROL_SIZE];
        m.read(Area::Pages, 0, &mut bytes)?;
        match count_in(&bytes) {
            Some(count) => Ok(Pages { count }),
            None => Err(PagesFault::Damaged),
        }
    }

    /// The number of pages, page 0 among them.
    pub fn count(&self) -> u64
        ensures count { result ≡ self.now }
        ensures some { 1 ≤ result }
        ensures few { result ≤ 2 ^ 28 }
    {
        self.count
    }

    /// Reads page `n`, counted from 0. After `Failed` the buffer may hold anything.
    pub fn read<M: Machine>(
        &mut self,
        m: &mut M,
        n: u64,
        into: &mut [u8; PAGE_SIZE],
    ) -> Result<(), Failed>
        requires { n < self.old }
        ensures bytes { OnOk result (IsTrue (M.meaning m.new).tells → into.new ≡ bytes_at ((M.meaning m.old).content areas.Pages) (4096 * n) 4096) }
        ensures same { self.new ≡ self.old }
        ensures looks { Looks (M.meaning m.old) (M.meaning m.new) }
        ensures cause { HasCause (M.meaning m.old).disk_faults (M.meaning m.new).disk_faults result }
        ensures beneath { M.beneath m.old m.new }
    {
        prove!(n < self.count());
        m.read(Area::Pages, n * 4096, into)
    }

    /// Adds the ranges that make a page of a table, the `extra`-th one behind those that count, and
    /// count it. `AllocError` is want of memory, and leaves the body as it was.
    pub fn plan_new_page(&self, table: u32, extra: u64, body: &mut Body) -> Result<(), AllocError>
        requires some { 1 ≤ extra }
        requires few { self.now + extra ≤ 2 ^ 28 }
        requires room { length body.old < 2 ^ 32 - 2 }
        ensures ok { OnOk result (body.new ≡ body.old ++ page_ranges table (self.now + extra - 1)) }
        ensures err { OnErr result (body.new ≡ body.old) }
    {
        let page = self.count + extra - 1;
        let mut bytes = [0; PAGE_SIZE];
        LittleEndian::write_u32(&mut bytes, table);
        body.push(page * 4096, &bytes)?;
        let pushed = body.push(0, &control_bytes(page + 1));
        if pushed.is_err() {
            body.pop();
        }
        pushed
    }

    /// Takes over a group that was committed and made so many pages.
    pub fn committed(&mut self, added: u64)
        requires { self.old + added ≤ 2 ^ 28 }
        ensures { self.new ≡ self.old + added }
    {
        self.count += added;
    }
}
