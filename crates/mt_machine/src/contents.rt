ghost use Rattle.std.specs.Prelude.{◌≡◌, ◌+◌, ◌≤◌, ◌^◌, [], ◌++◌, length, true, false, IsTrue};

use crate::image::Image;
use crate::{Area, Bytes};
use std::alloc::Global;

/// What a machine in memory holds and has put out, and whether it still tells that: it tells
/// nothing any more once a growth of its own found no memory.
#[derive(Debug, Drop)]
pub struct Contents {
    image: Image,
    output: Vec<u8>,
    telling: bool,
}

impl Contents {
    ghost use Rattle.mt_machine.specs.Image.{disk_of, image_disk};
    ghost use Rattle.mt_machine.specs.Run.{with_bytes};
    ghost use Rattle.mt_machine.specs.Calls.{Stand};

    /// The bytes of the two areas, each from its start; nothing is put out yet.
    pub fn new(alloc: Global, log: Bytes, pages: Bytes) -> Contents
        ensures content { image_disk result.image ≡ disk_of log pages }
        ensures output { result.output.items ≡ [] }
        ensures told { result.telling ≡ true }
    {
        Contents {
            image: Image::new(log, pages),
            output: Vec::new(alloc),
            telling: true,
        }
    }

    /// The bytes of the two areas.
    pub fn image(&self) -> &Image
        ensures { result.now ≡ self.now.image }
    {
        &self.image
    }

    /// All that was put out, in order.
    pub fn output(&self) -> &[u8]
        ensures { result.now ≡ self.now.output.items }
    {
        &self.output
    }

    /// Whether it still tells what it holds.
    pub fn telling(&self) -> bool
        ensures { result ≡ self.now.telling }
    {
        self.telling
    }

    /// Tells nothing from now on.
    pub fn stop_telling(&mut self)
        ensures { self.new ≡ record self.old { telling = false } }
    {
        self.telling = false;
    }

    /// Fills the buffer from the byte at `at` of an area, with zeros past the area's end.
    pub fn read(&self, area: Area, at: u64, buf: &mut [u8])
        ensures { Stand (image_disk self.now.image) area at buf.new }
    {
        self.image.read(area, at, buf)
    }

    /// Writes the bytes at `at` of an area. A growth that finds no memory is no error: from then on it
    /// tells nothing.
    pub fn write(&mut self, area: Area, at: u64, bytes: &[u8])
        ensures told { IsTrue self.new.telling → IsTrue self.old.telling }
        ensures content { IsTrue self.new.telling → image_disk self.new.image ≡ with_bytes area at bytes.now (image_disk self.old.image) }
        ensures output { self.new.output ≡ self.old.output }
    {
        if self.image.write(area, at, bytes).is_err() {
            self.telling = false;
        }
    }

    /// Puts the bytes out behind those that are out. A growth that finds no memory is no error: from
    /// then on it tells nothing.
    pub fn emit(&mut self, bytes: &[u8])
        ensures told { IsTrue self.new.telling → IsTrue self.old.telling }
        ensures output { IsTrue self.new.telling → self.new.output.items ≡ self.old.output.items ++ bytes.now }
        ensures content { self.new.image ≡ self.old.image }
    {
        if self.output.extend_from_slice(bytes).is_err() {
            self.telling = false;
        }
    }
}
