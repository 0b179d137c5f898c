//! A runtime whose files are in memory: it notes each call of the system, and one of them may go wrong.
ghost use Rattle.std.specs.Prelude.{◌≤◌, length, IsErr};

use crate::{Lock, SyncedAside, Syncer};
use std::alloc::{AllocError, Allocator, Global};
use std::fmt::Display;
use std::fs::{Files, Metadata, OpenFile, OpenOptions, TryLockError};
use std::io::{ErrorKind, PipeReader, PipeWriter, Read, Seek, SeekFrom, Write};
use std::os::unix::fs::FileExt;
use std::sync::{Arc, Mutex, MutexGuard};
use std::thread::Threads;
use std::{io, thread};

/// How often a sync looks whether the other one has begun.
const LOOKS: u32 = 10_000_000;

/// What goes wrong at one call.
#[derive(Clone, Copy, Debug, PartialEq, Eq)]
pub enum Trouble {
    /// It fails, a write with half of its bytes written.
    Fails(ErrorKind),
    /// It moves half of the bytes.
    Moves,
}

/// What kind of call it was.
#[derive(Clone, Copy, Debug, PartialEq, Eq)]
pub enum Call {
    Open,
    Lock,
    Length,
    Read,
    Write,
    /// A write of zeros alone.
    Step,
    Sync,
    Print,
    /// What a thread needs: a descriptor of its own, and pipes.
    Copy,
    Pipe,
}

/// The bytes of a file, and those that a stop would leave.
#[derive(Drop)]
pub struct Stored {
    pub bytes: Vec<u8>,
    pub durable: Vec<u8>,
}

/// All that is outside the process.
#[derive(Drop)]
pub struct Outside {
    pub log: Stored,
    pub pages: Stored,
    /// The folder was synced since its files were made.
    pub named: bool,
    /// Another process has the lock.
    pub held: bool,
    /// There are no pipes, so no thread is started.
    pub alone: bool,
    /// Each sync of the log or the pages waits until the other one has begun too.
    pub together: bool,
    /// A sync of the pages fails.
    pub stuck: bool,
    /// How many syncs of the log and the pages have begun.
    begun: u32,
    /// How long a file may become.
    pub room: usize,
    pub notes: String,
    pub said: String,
    /// How many calls there were, and which of them goes wrong; the first is 1.
    pub calls: u32,
    pub wrong: u32,
    pub trouble: Trouble,
    /// The last call that went wrong and was not looked at yet.
    pub met: Option<Call>,
}

#[derive(Clone, Copy)]
enum Which {
    Log,
    Pages,
    Folder,
}

/// The outside, which the test and each open file have a part in.
pub type Shared = Arc<Mutex<Outside>, Global>;

/// The runtime, with the threads and the pipes of another one.
#[derive(Drop)]
pub struct Fake<R> {
    pub rt: R,
    pub outside: Shared,
}

/// An open file of it.
#[derive(Drop)]
pub struct FakeFile {
    outside: Shared,
    which: Which,
    // The copy that a thread has.
    aside: bool,
}

impl Stored {
    fn new(alloc: Global) -> Stored {
        Stored {
            bytes: Vec::new(alloc),
            durable: Vec::new(alloc),
        }
    }

    fn put(&mut self, at: usize, bytes: &[u8]) -> Result<(), AllocError> {
        let end = at.saturating_add(bytes.len());
        if self.bytes.len() < end {
            self.bytes.resize(end, 0)?;
        }
        if let Some(range) = self.bytes.as_mut_slice().get_mut(at..end) {
            if range.len() == bytes.len() {
                range.copy_from_slice(bytes);
            }
        }
        Ok(())
    }

    // As many bytes from `at` on as there are, and as there is room for.
    fn get(&self, at: usize, buf: &mut [u8]) -> usize
        ensures { result ≤ length buf.new }
    {
        let start = at.min(self.bytes.len());
        let count = buf.len().min(self.bytes.len() - start);
        buf[..count].copy_from_slice(&self.bytes[start..start + count]);
        count
    }

    fn sync(&mut self) -> Result<(), AllocError> {
        self.durable.clear();
        self.durable.extend_from_slice(&self.bytes)
    }
}

impl Outside {
    /// An empty folder, and the trouble that comes of one call.
    pub fn new(alloc: Global, wrong: u32, trouble: Trouble) -> Outside {
        Outside {
            log: Stored::new(alloc),
            pages: Stored::new(alloc),
            named: false,
            held: false,
            alone: false,
            together: false,
            stuck: false,
            begun: 0,
            room: 1 << 20,
            notes: String::new(alloc),
            said: String::new(alloc),
            calls: 0,
            wrong,
            trouble,
            met: None,
        }
    }

    /// An empty folder, shared.
    pub fn shared(alloc: Global, wrong: u32, trouble: Trouble) -> Result<Shared, AllocError> {
        Ok(Arc::new(alloc, Mutex::new(Outside::new(alloc, wrong, trouble)))?)
    }

    // Counts a call, and answers the trouble that is to come of it.
    fn count(&mut self, call: Call) -> Option<Trouble> {
        self.calls = self.calls.wrapping_add(1);
        if self.calls != self.wrong {
            return None;
        }
        self.met = Some(call);
        Some(self.trouble)
    }

    // Counts a call that starts a thread. Such calls are not noted.
    fn pass_unnoted(&mut self, call: Call) -> io::Result<()> {
        match self.count(call) {
            Some(Trouble::Fails(kind)) => Err(kind.into()),
            _ => Ok(()),
        }
    }

    // Notes a call, and answers the trouble that is to come of it.
    fn note<D: Display + Drop>(&mut self, call: Call, text: D) -> io::Result<Option<Trouble>> {
        writeln!(self.notes, "{text}")?;
        Ok(self.count(call))
    }

    // A call that moves no bytes.
    fn pass<D: Display + Drop>(&mut self, call: Call, text: D) -> io::Result<()> {
        match self.note(call, text)? {
            Some(Trouble::Fails(kind)) => Err(kind.into()),
            _ => Ok(()),
        }
    }

    // The begin of a sync.
    fn begin<D: Display + Drop>(&mut self, which: Which, text: D) -> io::Result<()> {
        let is_pages = matches!(which, Which::Pages);
        if is_pages || matches!(which, Which::Log) {
            self.begun = self.begun.saturating_add(1);
        }
        self.pass(Call::Sync, text)?;
        if is_pages && self.stuck {
            self.met = Some(Call::Sync);
            return Err(ErrorKind::Uncategorized.into());
        }
        Ok(())
    }

    fn stored(&mut self, which: Which) -> io::Result<&mut Stored> {
        match which {
            Which::Log => Ok(&mut self.log),
            Which::Pages => Ok(&mut self.pages),
            Which::Folder => Err(ErrorKind::IsADirectory.into()),
        }
    }
}

fn name(which: Which) -> &'static str {
    match which {
        Which::Log => "log",
        Which::Pages => "pages",
        Which::Folder => "folder",
    }
}

/// Takes the lock, under which nothing waits.
pub fn enter(outside: &Shared) -> io::Result<MutexGuard<'_, Outside>> {
    for _ in 0..u64::MAX {
        if let Some(guard) = outside.try_lock() {
            return Ok(guard);
        }
        thread::yield_now();
    }
    Err(ErrorKind::Deadlock.into())
}

// Waits until a sync of the log and one of the pages have begun.
fn meet(outside: &Shared) -> io::Result<()> {
    for _ in 0..LOOKS {
        if enter(outside)?.begun > 1 {
            return Ok(());
        }
        thread::yield_now();
    }
    Err(ErrorKind::TimedOut.into())
}

fn refused<T>() -> io::Result<T>
    ensures { IsErr result }
{
    Err(ErrorKind::Unsupported.into())
}

impl<R: Threads> Threads for Fake<R> {}

impl<R: Files> Files for Fake<R> {
    type File = FakeFile;

    type Dir = FakeFile;

    fn open_file(&self, how: &OpenOptions, path: &str) -> io::Result<FakeFile> {
        how.check()?;
        let which = match path {
            "fold.log" => Which::Log,
            "fold.pages" => Which::Pages,
            "." => Which::Folder,
            _ => return Err(ErrorKind::NotFound.into()),
        };
        let name = name(which);
        enter(&self.outside)?.pass(Call::Open, format_args!("open {name}"))?;
        Ok(FakeFile {
            outside: Arc::try_clone(&self.outside)?,
            which,
            aside: false,
        })
    }

    fn pipe(&self) -> io::Result<(PipeReader, PipeWriter)> {
        if enter(&self.outside)?.alone {
            return refused();
        }
        enter(&self.outside)?.pass_unnoted(Call::Pipe)?;
        self.rt.pipe()
    }

    fn open_dir(&self, _path: &str) -> io::Result<FakeFile> {
        refused()
    }

    fn metadata(&self, _path: &str) -> io::Result<Metadata> {
        refused()
    }

    fn symlink_metadata(&self, _path: &str) -> io::Result<Metadata> {
        refused()
    }

    fn copy(&self, _from: &str, _to: &str) -> io::Result<u64> {
        refused()
    }

    fn rename(&self, _from: &str, _to: &str) -> io::Result<()> {
        refused()
    }

    fn remove_file(&self, _path: &str) -> io::Result<()> {
        refused()
    }

    fn create_dir(&self, _path: &str) -> io::Result<()> {
        refused()
    }

    fn remove_dir(&self, _path: &str) -> io::Result<()> {
        refused()
    }

    fn remove_dir_all<B: Allocator>(&self, _alloc: B, _path: &str) -> io::Result<()> {
        refused()
    }
}

impl<R> Print for Fake<R> {
    fn print<D: Display + Drop>(&self, _value: D) -> io::Result<()> {
        refused()
    }

    fn println<D: Display + Drop>(&self, _value: D) -> io::Result<()> {
        refused()
    }

    fn write_all(&self, bytes: &[u8]) -> io::Result<()> {
        let length = bytes.len();
        enter(&self.outside)?.pass(Call::Print, format_args!("print {length}"))
    }
}

impl<R> Eprint for Fake<R> {
    fn eprint<D: Display + Drop>(&self, value: D) -> io::Result<()> {
        write!(enter(&self.outside)?.said, "{value}")?;
        Ok(())
    }

    fn eprintln<D: Display + Drop>(&self, value: D) -> io::Result<()> {
        writeln!(enter(&self.outside)?.said, "{value}")?;
        Ok(())
    }
}

impl Lock for FakeFile {
    fn try_lock(&self) -> Result<(), TryLockError> {
        let name = name(self.which);
        let mut outside = enter(&self.outside).map_err(TryLockError::Error)?;
        outside
            .pass(Call::Lock, format_args!("lock {name}"))
            .map_err(TryLockError::Error)?;
        if outside.held {
            outside.met = Some(Call::Lock);
            return Err(TryLockError::WouldBlock);
        }
        Ok(())
    }
}

impl OpenFile for FakeFile {
    fn metadata(&self) -> io::Result<Metadata> {
        let name = name(self.which);
        let mut outside = enter(&self.outside)?;
        outside.pass(Call::Length, format_args!("length {name}"))?;
        let length = outside.stored(self.which)?.bytes.len();
        Ok(Metadata::of_file(length as u64))
    }

    fn set_len(&self, _size: u64) -> io::Result<()> {
        refused()
    }

    fn sync_all(&self) -> io::Result<()> {
        let name = name(self.which);
        let aside = if self.aside { " aside" } else { "" };
        let begun = enter(&self.outside)?.begin(self.which, format_args!("sync {name}{aside}"));
        if enter(&self.outside)?.together {
            meet(&self.outside)?;
        }
        // what was begun may fail, after it was met
        begun?;
        let mut outside = enter(&self.outside)?;
        match self.which {
            Which::Folder => outside.named = true,
            which => outside.stored(which)?.sync()?,
        }
        Ok(())
    }

    fn sync_data(&self) -> io::Result<()> {
        self.sync_all()
    }

    fn try_clone(&self) -> io::Result<FakeFile> {
        enter(&self.outside)?.pass_unnoted(Call::Copy)?;
        Ok(FakeFile {
            outside: Arc::try_clone(&self.outside)?,
            which: self.which,
            aside: true,
        })
    }
}

impl SyncedAside for FakeFile {
    fn start_syncer<R: Files + Threads>(&self, rt: &R) -> io::Result<Syncer> {
        Syncer::start(rt, self.try_clone()?)
    }
}

impl FileExt for FakeFile {
    fn read_at(&self, buf: &mut [u8], offset: u64) -> io::Result<usize> {
        let name = name(self.which);
        let (at, mut length) = (offset as usize, buf.len());
        let mut outside = enter(&self.outside)?;
        match outside.note(Call::Read, format_args!("read {name} {at} {length}"))? {
            Some(Trouble::Fails(kind)) => return Err(kind.into()),
            Some(Trouble::Moves) => length = length.div_ceil(2),
            None => {}
        }
        Ok(outside.stored(self.which)?.get(at, &mut buf[..length]))
    }

    fn write_at(&self, buf: &[u8], offset: u64) -> io::Result<usize> {
        let name = name(self.which);
        let (at, length) = (offset as usize, buf.len());
        let mut outside = enter(&self.outside)?;
        let call = if buf.iter().all(|byte| *byte == 0) {
            Call::Step
        } else {
            Call::Write
        };
        let trouble = outside.note(call, format_args!("write {name} {at} {length}"))?;
        let mut count = length.min(outside.room.saturating_sub(at));
        if trouble.is_some() {
            count = count.min(length.div_ceil(2));
        }
        outside.stored(self.which)?.put(at, &buf[..count])?;
        if count == 0 {
            outside.met = Some(call);
            return Err(ErrorKind::StorageFull.into());
        }
        match trouble {
            Some(Trouble::Fails(kind)) => Err(kind.into()),
            _ => Ok(count),
        }
    }
}

impl Read for FakeFile {
    fn read(&mut self, _buf: &mut [u8]) -> io::Result<usize> {
        refused()
    }
}

impl Write for FakeFile {
    fn write(&mut self, _buf: &[u8]) -> io::Result<usize> {
        refused()
    }

    fn flush(&mut self) -> io::Result<()> {
        refused()
    }
}

impl Seek for FakeFile {
    fn seek(&mut self, _to: SeekFrom) -> io::Result<u64> {
        refused()
    }
}
