ghost use Rattle.std.specs.Prelude.{◌≡◌, ◌-◌, ◌<◌, ◌≤◌, ◌^◌, length, IfOk, IfSome};

use crate::disk::Disk;
use crate::failed::Failed;
use crate::interruption::{INTERRUPTIONS, is_tried_again};
use own_base::Area;
use std::fs::{File, Files, OpenOptions};
use std::io;
use std::os::unix::fs::FileExt;

/// Two files of a folder, `a` and `b`, which are locked as long as it is there. It tells nothing of their bytes.
///
/// Each error of the system makes the call answer `Failed`, and the count of faults rises by one. A write goes on until
/// the system took all of the bytes; one that takes none is an error. An interrupted call is tried again: a read or a
/// write at most `INTERRUPTIONS` times in a row, and the one after those is an error like any other.
#[derive(Drop)]
pub struct FileDisk {
    a: File,
    b: File,
    faults: u64,
    ghost in_range: { faults < 2 ^ 64 },
}

impl FileDisk {
    /// Opens the two files of the folder, which has to be there, and makes those that are missing. The empty text means the
    /// current folder. What is made is made durable, so that a power cut can't lose the files themselves. The files are
    /// locked as long as they are open: where another open disk has them, it is an error (`WouldBlock`), and nothing else
    /// was done than to make what was missing.
    pub fn open<R: Files<File = File> + AllocGlobal>(rt: &R, folder: &str) -> io::Result<FileDisk>
        ensures { IfOk result (λ disk. ⟦<FileDisk as Disk>⟧.faults disk ≡ 0) }
    {
        let folder = if folder.is_empty() { "." } else { folder };
        let a = open_file(rt, folder, "a")?;
        let b = open_file(rt, folder, "b")?;
        File::open(rt, folder)?.sync_all()?;
        Ok(FileDisk { a, b, faults: 0 })
    }

    fn file(&self, area: Area) -> &File {
        match area {
            Area::A => &self.a,
            Area::B => &self.b,
        }
    }

    /// Counts a fault.
    fn fail(&mut self) -> Failed
        ensures counted { self.old.faults < 2 ^ 64 - 1 → self.old.faults < self.new.faults }
        ensures no_lower { self.old.faults ≤ self.new.faults }
    {
        self.faults = self.faults.saturating_add(1);
        Failed
    }
}

/// Opens a file of a folder, and makes it where it is missing. It is locked until it is closed.
fn open_file<R: Files<File = File> + AllocGlobal>(
    rt: &R,
    folder: &str,
    name: &str,
) -> io::Result<File> {
    let path = format!(in rt.alloc(); "{folder}/{name}")?;
    let file = OpenOptions::new()
        .read(true)
        .write(true)
        .create(true)
        .open(rt, path)?;
    file.try_lock()?;
    Ok(file)
}

impl Disk for FileDisk {
    ghost use Rattle.std.specs.Prelude.{false, ⊤, []};

    ghost faults = { λ disk. disk.faults };

    ghost honest = { λ _. false };

    ghost holds = { λ _ _. [] };

    ghost leaves = { λ _ _ _. ⊤ };

    ghost moment = { λ _. 0 };

    ghost might_have_left = { λ _ _ _ _. ⊤ };

    ghost now_counts = { λ _ _ _ _ _ _ _. tt };

    ghost only_now = { λ _ _ _ _. (tt, tt) };

    ghost reads_may_stay = { λ _ _ _. tt };

    fn len(&mut self, area: Area) -> Result<u64, Failed> {
        match self.file(area).metadata() {
            Ok(metadata) => Ok(metadata.len()),
            Err(_) => Err(self.fail()),
        }
    }

    fn read_at(&mut self, area: Area, at: u64, into: &mut [u8]) -> Result<usize, Failed> {
        match read_unless_interrupted(self.file(area), at, into) {
            Some(count) => Ok(count),
            None => Err(self.fail()),
        }
    }

    fn write_at(&mut self, area: Area, at: u64, bytes: &[u8]) -> Result<(), Failed> {
        match write_whole(self.file(area), at, bytes) {
            Some(()) => Ok(()),
            None => Err(self.fail()),
        }
    }

    fn cut(&mut self, area: Area, len: u64) -> Result<(), Failed> {
        match self.file(area).set_len(len) {
            Ok(()) => Ok(()),
            Err(_) => Err(self.fail()),
        }
    }

    fn sync(&mut self, area: Area) -> Result<(), Failed> {
        match self.file(area).sync_data() {
            Ok(()) => Ok(()),
            Err(_) => Err(self.fail()),
        }
    }

    fn faults(&self) -> u64 {
        self.faults
    }

    fn moment(&self) -> u64 {
        0
    }
}

/// Reads at a place, and reads again where a signal interrupted that, at most `INTERRUPTIONS` times. None tells of an
/// error.
fn read_unless_interrupted(file: &File, at: u64, into: &mut [u8]) -> Option<usize>
    ensures { IfSome result (λ count. count ≤ length into.new) }
{
    for _ in 0..=INTERRUPTIONS {
        match file.read_at(into, at) {
            Ok(count) => return Some(count),
            Err(error) if is_tried_again(error.kind()) => {}
            Err(_) => return None,
        }
    }
    None
}

/// Writes some of the bytes at a place, and tries again where a signal interrupted that, at most `INTERRUPTIONS` times.
/// None tells of an error.
fn write_unless_interrupted(file: &File, at: u64, bytes: &[u8]) -> Option<usize>
    ensures { IfSome result (λ count. count ≤ length bytes.now) }
{
    for _ in 0..=INTERRUPTIONS {
        match file.write_at(bytes, at) {
            Ok(count) => return Some(count),
            Err(error) if is_tried_again(error.kind()) => {}
            Err(_) => return None,
        }
    }
    None
}

/// Writes all the bytes at a place. None tells of an error, which a write of none of them is too.
fn write_whole(file: &File, at: u64, bytes: &[u8]) -> Option<()> {
    let mut taken = 0;
    while taken < bytes.len() {
        let place = at.checked_add(taken as u64)?;
        let count = write_unless_interrupted(file, place, &bytes[taken..])?;
        if count == 0 {
            return None;
        }
        taken += count;
    }
    Some(())
}
