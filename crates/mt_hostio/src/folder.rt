use crate::files::FolderFiles;
use crate::{Lock, SyncedAside};
use mt_machine::Area;
use std::fs::{Files, OpenFile};
use std::io;
use std::os::unix::fs::FileExt;
use std::thread::Threads;

const HELD: &str = "foldsql: another process has this folder";

// The two files of the current folder, which the first call opens.
#[derive(Drop)]
pub(crate) struct Folder<F> {
    files: Option<FolderFiles<F>>,
    // It was said on standard error that another process has the folder.
    said_held: bool,
    // A sync failed. The system may have dropped what it could not write and answer the next sync
    // with success, so no call succeeds from then on.
    sync_failed: bool,
}

impl<F: OpenFile + FileExt + Lock + SyncedAside + Drop> Folder<F> {
    pub(crate) fn new() -> Folder<F> {
        Folder {
            files: None,
            said_held: false,
            sync_failed: false,
        }
    }

    pub(crate) fn read<R: Files<File = F> + Eprint>(
        &mut self,
        rt: &R,
        area: Area,
        at: u64,
        buf: &mut [u8],
    ) -> io::Result<()> {
        self.opened(rt)?.read(area, at, buf)
    }

    pub(crate) fn write<R: Files<File = F> + Eprint>(
        &mut self,
        rt: &R,
        area: Area,
        at: u64,
        bytes: &[u8],
    ) -> io::Result<()> {
        self.opened(rt)?.write(area, at, bytes)
    }

    pub(crate) fn sync<R: Files<File = F> + Eprint + Threads>(&mut self, rt: &R) -> io::Result<()> {
        let outcome = self.opened(rt)?.sync(rt);
        self.sync_failed = outcome.is_err();
        outcome
    }

    // The open files, which are opened here where they are not open yet.
    fn opened<R: Files<File = F> + Eprint>(&mut self, rt: &R) -> io::Result<&mut FolderFiles<F>> {
        if self.sync_failed {
            return Err(io::ErrorKind::Other.into());
        }
        match &mut self.files {
            Some(open) => Ok(open),
            closed => Ok(closed.insert(open_files(rt, &mut self.said_held)?)),
        }
    }
}

impl<F: Drop> Folder<F> {
    // Closes the files, where they are open.
    pub(crate) fn close<R: Threads>(self, rt: &R) {
        if let Some(files) = self.files {
            files.close(rt);
        }
    }
}

// Opens the files. Where another process has them, that is said, once.
fn open_files<R: Files + Eprint>(rt: &R, said_held: &mut bool) -> io::Result<FolderFiles<R::File>>
where
    R::File: FileExt + Lock + SyncedAside,
{
    let outcome = FolderFiles::open(rt);
    if let Err(e) = &outcome {
        if e.kind() == io::ErrorKind::WouldBlock && !*said_held {
            *said_held = true;
            // There is nobody to tell where this fails too.
            let _ = rt.eprintln(HELD);
        }
    }
    outcome
}
