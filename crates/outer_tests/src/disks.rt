ghost use Rattle.std.specs.Prelude.{◌≡◌, [], length, IsTrue};
ghost use Rattle.own_base.specs.declared.number.Area.TheVariants.{A};

use outer_world::{Disk, Failed, FileDisk, FuseDisk, MemDisk, RamDisk, UnreadDisk};
use own_base::Area;
use std::alloc::{AllocError, Global};
use std::fs;
use std::fs::{File, Files};
use std::io::ErrorKind;
use std::mem::drop;
use std::process::Abort;
use std::test::Fail;

/// What a crash leaves of area A after so many of the calls of `change`: where it kept what wasn't durable, and where it
/// lost that.
const LEFT: [(u32, &str, &str); 8] = [
    (0, "", ""),
    (1, "abcd", ""),
    (2, "abcd", "abcd"),
    (3, "abXYZ", "abcd"),
    (4, "abXYZ", "abcd"),
    (5, "a", "abcd"),
    (6, "a", "abcd"),
    (7, "a", "a"),
];

/// Seven calls that change area A of an empty disk, or make durable what an area holds.
fn change<D: Disk + Send>(disk: &mut D) -> Result<(), Failed>
    requires { IsTrue (D.honest disk.old) → D.holds disk.old A ≡ [] }
{
    disk.write_at(Area::A, 0, b"abcd")?;
    disk.sync(Area::A)?;
    change_durable(disk)
}

fn change_durable<D: Disk>(disk: &mut D) -> Result<(), Failed>
    requires { IsTrue (D.honest disk.old) → length (D.holds disk.old A) ≡ 4 }
{
    disk.write_at(Area::A, 2, b"XYZ")?;
    disk.sync(Area::B)?;
    disk.cut(Area::A, 1)?;
    disk.sync(Area::B)?;
    disk.sync(Area::A)
}

/// The disk after a crash that follows so many of the calls.
fn crashed(alloc: Global, calls: u32, kept: bool) -> Result<MemDisk, AllocError> {
    let mut disk = FuseDisk::new(MemDisk::new(alloc, &[])?, calls);
    let _ = change(&mut disk);
    Ok(disk.inner().crash(kept))
}

#[test]
fn a_ram_disk_holds_what_was_written(rt: HostRuntime) -> Result<(), Fail> {
    let mut disk = RamDisk::new(rt.alloc());
    assert_eq!(rt; change(&mut disk), Ok(()));
    assert_eq!(rt; disk.len(Area::A), Ok(1));
    let mut piece = *b"..";
    assert_eq!(rt; disk.read_at(Area::A, 0, &mut piece), Ok(1));
    assert_eq!(rt; piece.as_slice(), b"a.".as_slice());
    assert_eq!(rt; (disk.faults(), disk.moment()), (0, 3));
    Ok(())
}

#[test]
fn an_unread_disk_keeps_lengths(rt: HostRuntime) -> Result<(), Fail> {
    let mut disk = UnreadDisk::new();
    assert_eq!(rt; disk.write_at(Area::B, 0, b"bytes"), Ok(()));
    assert_eq!(rt; change(&mut disk), Ok(()));
    assert_eq!(rt;
        (length(&mut disk, Area::A), length(&mut disk, Area::B)),
        (Ok(1), Ok(5))
    );
    assert_eq!(rt; piece_at(&mut disk, Area::B, 5), Ok((0, *b"....")));
    assert_eq!(rt; piece_at(&mut disk, Area::B, 4), Err(Failed));
    assert_eq!(rt; (disk.faults(), disk.moment()), (1, 4));
    Ok(())
}

#[test]
fn a_crash_keeps_or_loses_what_is_not_durable(rt: HostRuntime) -> Result<(), Fail> {
    for (calls, kept, lost) in LEFT {
        let disk = crashed(rt.alloc(), calls, true)?;
        assert_eq!(rt; disk.bytes(Area::A), kept.as_bytes(), "kept, after {calls}");
        let disk = crashed(rt.alloc(), calls, false)?;
        assert_eq!(rt; disk.bytes(Area::A), lost.as_bytes(), "lost, after {calls}");
        assert_eq!(rt; disk.bytes(Area::B).len(), 0);
        assert_eq!(rt; disk.moment(), 0);
    }
    Ok(())
}

/// What a call that fails with the count of faults tells, or the length that it gives.
fn length<D: Disk>(disk: &mut D, area: Area) -> Result<u64, u64> {
    match disk.len(area) {
        Ok(len) => Ok(len),
        Err(Failed) => Err(disk.faults()),
    }
}

/// How many bytes a read of four gave, and the piece after it.
fn piece_at<D: Disk>(disk: &mut D, area: Area, at: u64) -> Result<(usize, [u8; 4]), Failed> {
    let mut piece = *b"....";
    let count = disk.read_at(area, at, &mut piece)?;
    Ok((count, piece))
}

#[test]
fn calls_of_given_numbers_fail(rt: HostRuntime) -> Result<(), Fail> {
    let mut disk = MemDisk::new(rt.alloc(), &[1, 2, 4])?;
    assert_eq!(rt; length(&mut disk, Area::A), Ok(0));
    assert_eq!(rt; length(&mut disk, Area::A), Err(1));
    assert_eq!(rt; length(&mut disk, Area::B), Err(2));
    assert_eq!(rt; length(&mut disk, Area::B), Ok(0));
    assert_eq!(rt; piece_at(&mut disk, Area::B, 0), Err(Failed));
    assert_eq!(rt; piece_at(&mut disk, Area::B, 0), Ok((0, *b"....")));
    Ok(())
}

#[test]
fn a_fuse_passes_so_many_calls(rt: HostRuntime) -> Result<(), Fail> {
    let mut disk = FuseDisk::new(MemDisk::new(rt.alloc(), &[])?, 1);
    assert_eq!(rt; length(&mut disk, Area::A), Ok(0));
    assert_eq!(rt; length(&mut disk, Area::A), Err(1));
    assert_eq!(rt; length(&mut disk, Area::B), Err(2));
    Ok(())
}

/// Three writes to files, each of them made durable.
fn lay(disk: &mut FileDisk) -> Result<(), Failed> {
    disk.write_at(Area::A, 0, b"abcdef")?;
    disk.write_at(Area::A, 4, b"XYZ")?;
    disk.sync(Area::A)?;
    disk.write_at(Area::B, 0, b"0")?;
    disk.sync(Area::B)
}

fn cut_to_two(disk: &mut FileDisk) -> Result<(), Failed> {
    disk.cut(Area::A, 2)
}

const FOLDER: &str = "outer_tests_disk";

/// Writes, reads and cuts two files.
fn use_files<R: Files<File = File> + AllocGlobal + Abort>(rt: &R) -> Result<(), Fail> {
    let mut disk = FileDisk::open(rt, FOLDER)?;
    assert_eq!(rt; lay(&mut disk), Ok(()));
    assert_eq!(rt; piece_at(&mut disk, Area::A, 3), Ok((4, *b"dXYZ")));
    assert_eq!(rt; cut_to_two(&mut disk), Ok(()));
    assert_eq!(rt; piece_at(&mut disk, Area::A, 0), Ok((2, *b"ab..")));
    assert_eq!(rt; piece_at(&mut disk, Area::A, 2), Ok((0, *b"....")));
    assert_eq!(rt; piece_at(&mut disk, Area::A, u64::MAX), Err(Failed));
    Ok(())
}

/// Opens the files again.
fn find_files<R: Files<File = File> + AllocGlobal + Abort>(rt: &R) -> Result<(), Fail> {
    let mut disk = FileDisk::open(rt, FOLDER)?;
    assert_eq!(rt; length(&mut disk, Area::A), Ok(2));
    assert_eq!(rt; length(&mut disk, Area::B), Ok(1));
    Ok(())
}

/// While a disk has the files, no other is opened over them.
fn open_twice<R: Files<File = File> + AllocGlobal + Abort>(rt: &R) -> Result<(), Fail> {
    let disk = FileDisk::open(rt, FOLDER)?;
    let kind = match FileDisk::open(rt, FOLDER) {
        Ok(_) => None,
        Err(error) => Some(error.kind()),
    };
    assert_eq!(rt; kind, Some(ErrorKind::WouldBlock));
    drop(disk);
    Ok(())
}

#[test]
fn a_disk_of_files_moves_the_right_bytes(rt: HostRuntime) -> Result<(), Fail> {
    let _ = fs::remove_dir_all(&rt, FOLDER);
    assert!(rt;
        FileDisk::open(&rt, FOLDER).is_err(),
        "a folder that isn't there"
    );
    fs::create_dir(&rt, FOLDER)?;
    use_files(&rt)?;
    find_files(&rt)?;
    open_twice(&rt)?;
    find_files(&rt)?;
    fs::remove_dir_all(&rt, FOLDER)?;
    Ok(())
}
