use crate::{Lock, SyncedAside, Syncer};
use mt_machine::Area;
use std::fs::{Files, OpenFile, OpenOptions};
use std::os::unix::fs::{FileExt, OpenOptionsExt};
use std::thread::Threads;
use std::{fs, io};

const LOG: &str = "fold.log";

const PAGES: &str = "fold.pages";

// How far the log grows at a time, bytes. A sync of bytes within a file's length is the cheap one:
// the file system has no new length to make durable. The zeros read as what lies past the end.
const LOG_STEP: [u8; 1 << 16] = [0; 1 << 16];

// An open file of one area.
#[derive(Drop)]
struct AreaFile<F> {
    file: F,
    // The end of what the file held when it was opened and of all that was to be written to it since,
    // bytes. It counts a write that failed, so that no step of zeros covers what that write left.
    end: u64,
    // Something may have been written that no sync has made durable. A file that was just opened
    // counts as such: an earlier process may have left writes that are not on the disk yet.
    unsynced: bool,
}

impl<F: OpenFile + FileExt + Drop> AreaFile<F> {
    fn new(file: F) -> io::Result<AreaFile<F>> {
        let end = file.metadata()?.len();
        Ok(AreaFile {
            file,
            end,
            unsynced: true,
        })
    }

    fn write(&mut self, at: u64, bytes: &[u8]) -> io::Result<()> {
        self.unsynced = true;
        self.end = self.end.max(at.saturating_add(bytes.len() as u64));
        self.file.write_all_at(bytes, at)
    }

    // Writes a step of zeros at the file's end where bytes up to `end` would pass it. Where there is
    // no room for a step, there may be for the bytes.
    fn make_room(&mut self, end: u64) -> io::Result<()> {
        if end <= self.end {
            return Ok(());
        }
        match self.write(self.end, &LOG_STEP) {
            Err(e) if is_full(e.kind()) => Ok(()),
            outcome => outcome,
        }
    }

    fn sync(&mut self) -> io::Result<()> {
        if self.unsynced {
            self.file.sync_data()?;
            self.unsynced = false;
        }
        Ok(())
    }
}

// The two files of a folder, both open, the log locked.
#[derive(Drop)]
pub(crate) struct FolderFiles<F> {
    log: AreaFile<F>,
    pages: AreaFile<F>,
    folder: F,
    // The names of the files may not be on the disk yet.
    unsynced: bool,
    // Syncs the pages beside the log. The first sync that both need starts it.
    syncer: Option<Syncer>,
}

impl<F: OpenFile + FileExt + Lock + SyncedAside + Drop> FolderFiles<F> {
    // Opens the files, and makes those that are missing. The log has its first step of zeros from
    // here on, so that no write covers the first gate but those that are asked for. An error of kind
    // `WouldBlock` is a folder that another process has.
    pub(crate) fn open<R: Files<File = F>>(rt: &R) -> io::Result<FolderFiles<F>> {
        let log = open_own(rt, LOG)?;
        log.try_lock()?;
        let mut log = AreaFile::new(log)?;
        log.make_room(1)?;
        Ok(FolderFiles {
            log,
            pages: AreaFile::new(open_own(rt, PAGES)?)?,
            folder: fs::open(rt, ".")?,
            unsynced: true,
            syncer: None,
        })
    }

    // Fills the buffer, with zeros past the file's end.
    pub(crate) fn read(&self, area: Area, at: u64, buf: &mut [u8]) -> io::Result<()> {
        let file = match area {
            Area::Log => &self.log.file,
            Area::Pages => &self.pages.file,
        };
        read_or_zero(file, at, buf)
    }

    pub(crate) fn write(&mut self, area: Area, at: u64, bytes: &[u8]) -> io::Result<()> {
        match area {
            Area::Log => {
                self.log.make_room(at.saturating_add(bytes.len() as u64))?;
                self.log.write(at, bytes)
            }
            Area::Pages => self.pages.write(at, bytes),
        }
    }

    pub(crate) fn sync<R: Files<File = F> + Threads>(&mut self, rt: &R) -> io::Result<()> {
        if self.log.unsynced && self.pages.unsynced {
            self.sync_both(rt)?;
        } else {
            self.log.sync()?;
            self.pages.sync()?;
        }
        if self.unsynced {
            self.folder.sync_all()?;
            self.unsynced = false;
        }
        Ok(())
    }

    // Syncs the log and the pages at once, or one after the other where there is no thread for it.
    fn sync_both<R: Files<File = F> + Threads>(&mut self, rt: &R) -> io::Result<()> {
        if self.syncer.is_none() {
            self.syncer = self.pages.file.start_syncer(rt).ok();
        }
        match &self.syncer {
            Some(syncer) if syncer.begin().is_ok() => {
                let log = self.log.sync();
                syncer.finish()?;
                self.pages.unsynced = false;
                log
            }
            _ => {
                self.log.sync()?;
                self.pages.sync()
            }
        }
    }
}

impl<F: Drop> FolderFiles<F> {
    // Closes the files, and ends the thread if there is one.
    pub(crate) fn close<R: Threads>(self, rt: &R) {
        let FolderFiles {
            log: _,
            pages: _,
            folder: _,
            unsynced: _,
            syncer,
        } = self;
        if let Some(syncer) = syncer {
            syncer.stop(rt);
        }
    }
}

// Opens a file to read and write it, and makes it where it is missing, for its owner alone.
fn open_own<R: Files>(rt: &R, path: &str) -> io::Result<R::File> {
    let mut options = OpenOptions::new();
    options.read(true).write(true).create(true).mode(0o600);
    options.open(rt, path)
}

// The disk, or the owner's share of it, has no room.
fn is_full(kind: io::ErrorKind) -> bool {
    matches!(
        kind,
        io::ErrorKind::StorageFull | io::ErrorKind::QuotaExceeded | io::ErrorKind::FileTooLarge
    )
}

fn read_or_zero<F: FileExt>(file: &F, at: u64, buf: &mut [u8]) -> io::Result<()> {
    let mut done = 0;
    for _ in 0..u64::MAX {
        if done >= buf.len() {
            return Ok(());
        }
        match file.read_at(&mut buf[done..], at.wrapping_add(done as u64)) {
            Ok(0) => {
                buf[done..].fill(0);
                return Ok(());
            }
            Ok(count) => done += count,
            Err(e) if e.kind() == io::ErrorKind::Interrupted => {}
            Err(e) => return Err(e),
        }
    }
    Err(io::ErrorKind::Interrupted.into())
}
