ghost use Rattle.std.specs.Prelude.{◌≡◌, ◌+◌, ◌-◌, ◌≤◌, ◌^◌, [], ◌++◌, length, take, replicate, vec_len, OnOk, IfOk};
ghost use Rattle.mt_machine.specs.Image.{IsFilled, IsWritten, ReadsAlike};

use crate::front::put_front;
use crate::{Area, Bytes};
use mt_list::List;
use std::alloc::{AllocError, Global};

/// The two areas of a machine in memory. An area reads zero past its last byte.
#[derive(Debug, Drop)]
pub struct Image {
    log: Vec<u8>,
    pages: Vec<u8>,
}

impl Image {
    ghost use Rattle.mt_machine.specs.Image.{area_of, image_disk};
    ghost use Rattle.mt_machine.specs.Run.{with_bytes};
    ghost use Rattle.mt_machine.specs.Calls.{Stand};

    /// The bytes of the two areas, each from its start.
    pub fn new(log: Bytes, pages: Bytes) -> Image
        ensures log { result.log.items ≡ log }
        ensures pages { result.pages.items ≡ pages }
    {
        Image {
            log: log.into_vec(),
            pages: pages.into_vec(),
        }
    }

    /// The bytes of the log; zeros follow them without end.
    pub fn log(&self) -> &[u8]
        ensures { result.now ≡ self.now.log.items }
    {
        &self.log
    }

    /// The bytes of the pages; zeros follow them without end.
    pub fn pages(&self) -> &[u8]
        ensures { result.now ≡ self.now.pages.items }
    {
        &self.pages
    }

    /// The bytes of the two areas.
    pub fn into_areas(self) -> (Bytes, Bytes)
        ensures log { result.0 ≡ self.log.items }
        ensures pages { result.1 ≡ self.pages.items }
    {
        let Image { log, pages } = self;
        (List::from_vec(log), List::from_vec(pages))
    }

    /// An image of the same bytes. `AllocError` is want of memory.
    pub fn copy(&self, alloc: Global) -> Result<Image, AllocError>
        ensures { IfOk result (λ copied. image_disk copied ≡ image_disk self.now) }
    {
        Ok(Image {
            log: Vec::from_slice(alloc, &self.log)?,
            pages: Vec::from_slice(alloc, &self.pages)?,
        })
    }

    /// Fills the buffer from the byte at `at` of an area, with zeros past the area's end.
    pub fn read(&self, area: Area, at: u64, buf: &mut [u8])
        ensures { Stand (image_disk self.now) area at buf.new }
    {
        let held = match area {
            Area::Log => &self.log,
            Area::Pages => &self.pages,
        };
        fill_from(held, at as usize, buf);
    }

    /// Writes the bytes, with zeros before them where the area ends before `at`; no bytes change
    /// nothing. `AllocError` is want of memory, as for a range that ends past the last address.
    pub fn write(&mut self, area: Area, at: u64, bytes: &[u8]) -> Result<(), AllocError>
        ensures written { OnOk result (image_disk self.new ≡ with_bytes area at bytes.now (image_disk self.old)) }
        ensures empty { bytes.now ≡ [] → self.new ≡ self.old }
    {
        if bytes.is_empty() {
            return Ok(());
        }
        match area {
            Area::Log => write_over(&mut self.log, at as usize, bytes),
            Area::Pages => write_over(&mut self.pages, at as usize, bytes),
        }
    }

    /// Writes so many copies of one byte, as `write` writes bytes.
    pub fn fill(&mut self, area: Area, at: u64, count: usize, byte: u8) -> Result<(), AllocError>
        ensures written { OnOk result (image_disk self.new ≡ with_bytes area at (replicate count byte) (image_disk self.old)) }
        ensures empty { count ≡ 0 → self.new ≡ self.old }
    {
        if count == 0 {
            return Ok(());
        }
        match area {
            Area::Log => fill_over(&mut self.log, at as usize, count, byte),
            Area::Pages => fill_over(&mut self.pages, at as usize, count, byte),
        }
    }
}

/// Fills `buf` with what is held from `at` on, and with zero past the end of it.
fn fill_from(held: &[u8], at: usize, buf: &mut [u8])
    ensures { IsFilled held.now at buf.new }
{
    let start = at.min(held.len());
    let count = buf.len().min(held.len() - start);
    put_front(buf, &held[start..start + count]);
    clear_from(buf, count);
}

/// Writes zeros from `at` to the end.
fn clear_from(buf: &mut [u8], at: usize)
    requires { at ≤ length buf.old }
    ensures { buf.new ≡ take at buf.old ++ replicate (length buf.old - at) 0 }
{
    buf[at..].fill(0);
}

/// Writes the bytes over what is held from `at` on, which grows where it is too short.
fn write_over(held: &mut Vec<u8>, at: usize, bytes: &[u8]) -> Result<(), AllocError>
    ensures { OnOk result (IsWritten held.old.items held.new.items at bytes.now) }
{
    grow(held, end_of(at, bytes.len())?)?;
    put_at(held, at, bytes);
    Ok(())
}

/// Writes so many copies of the byte over what is held from `at` on, which grows where it is too
/// short.
fn fill_over(held: &mut Vec<u8>, at: usize, count: usize, byte: u8) -> Result<(), AllocError>
    ensures { OnOk result (IsWritten held.old.items held.new.items at (replicate count byte)) }
{
    grow(held, end_of(at, count)?)?;
    fill_at(held, at, count, byte);
    Ok(())
}

/// The end of a range. `AllocError` where no memory has so high an address.
fn end_of(at: usize, count: usize) -> Result<usize, AllocError>
    ensures { IfOk result (λ end. end ≡ at + count) }
{
    at.checked_add(count).ok_or(AllocError)
}

/// Makes what is held at least this long, by zeros at its end.
fn grow(held: &mut Vec<u8>, end: usize) -> Result<(), AllocError>
    ensures length { OnOk result (end ≤ vec_len held.new) }
    ensures alike { OnOk result (ReadsAlike held.old.items held.new.items) }
{
    if held.len() < end {
        held.resize(end, 0)?;
    }
    Ok(())
}

/// Writes the bytes over those from `at` on.
fn put_at(held: &mut [u8], at: usize, bytes: &[u8])
    requires { at + length bytes.now ≤ length held.old }
    ensures { IsWritten held.old held.new at bytes.now }
{
    held[at..at + bytes.len()].copy_from_slice(bytes);
}

/// Writes so many copies of the byte over those from `at` on.
fn fill_at(held: &mut [u8], at: usize, count: usize, byte: u8)
    requires { at + count ≤ length held.old }
    ensures { IsWritten held.old held.new at (replicate count byte) }
{
    held[at..at + count].fill(byte);
}
