use std::fs::{File, Files, OpenFile};
use std::io::{PipeReader, PipeWriter, Read, Write};
use std::thread::{JoinHandle, Threads};
use std::{io, thread};

/// A file that a thread can sync while its caller does other things.
pub trait SyncedAside {
    /// Starts the thread, over another descriptor of the same open file: what the system could not write
    /// is then told to the next sync, whoever makes it.
    fn start_syncer<R: Files + Threads>(&self, rt: &R) -> io::Result<Syncer>;
}

impl SyncedAside for File {
    fn start_syncer<R: Files + Threads>(&self, rt: &R) -> io::Result<Syncer> {
        Syncer::start(rt, self.try_clone()?)
    }
}

// The byte in the pipe to the thread for each sync that it is to make.
const ASKED: u8 = 0;

// The bytes in the pipe back for a sync that succeeded, and for one that did not.
const SYNCED: u8 = 1;

const FAILED: u8 = 2;

/// A thread that syncs a file each time it is asked. It is spoken to through pipes, since no read of one
/// waits without end: the thread answers, or its end of the pipe is closed.
#[derive(Drop)]
pub struct Syncer {
    asks: PipeWriter,
    answers: PipeReader,
    thread: JoinHandle<()>,
}

impl Syncer {
    /// Starts a thread that syncs this file, and ends once the `Syncer` is dropped.
    pub fn start<R: Files + Threads, F: OpenFile + Send + Drop + 'static>(
        rt: &R,
        file: F,
    ) -> io::Result<Syncer> {
        let (asked, asks) = io::pipe(rt)?;
        let (answers, answered) = io::pipe(rt)?;
        match thread::spawn(rt, move || serve(&file, asked, answered)) {
            Ok(thread) => Ok(Syncer {
                asks,
                answers,
                thread,
            }),
            Err(_) => Err(io::ErrorKind::WouldBlock.into()),
        }
    }

    // Has the thread begin a sync. Where this fails it begins none.
    pub(crate) fn begin(&self) -> io::Result<()> {
        (&self.asks).write_all(&[ASKED])
    }

    // Waits for the sync that was begun. A thread that is gone without an answer may have met an error
    // that the system tells once, so no other sync can stand for this one.
    pub(crate) fn finish(&self) -> io::Result<()> {
        let mut answer = [0; 1];
        (&self.answers).read_exact(&mut answer)?;
        match answer {
            [SYNCED] => Ok(()),
            _ => Err(io::ErrorKind::Other.into()),
        }
    }

    // Ends the thread.
    pub(crate) fn stop<R: Threads>(self, rt: &R) {
        let Syncer {
            asks,
            answers,
            thread,
        } = self;
        drop(asks);
        thread.join(rt);
        drop(answers);
    }
}

// Syncs the file as often as is asked, until nobody is left to ask.
fn serve<F: OpenFile>(file: &F, mut asked: PipeReader, mut answers: PipeWriter) {
    for _ in 0..u64::MAX {
        if asked.read_exact(&mut [0; 1]).is_err() {
            return;
        }
        let answer = match file.sync_data() {
            Ok(()) => SYNCED,
            Err(_) => FAILED,
        };
        if answers.write_all(&[answer]).is_err() {
            return;
        }
    }
}
