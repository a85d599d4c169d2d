use outer_world::{Disk, Failed, FileDisk};
use own_base::Area;
use std::fs;
use std::fs::{File, Files};
use std::io::ErrorKind;
use std::os::unix::fs::symlink;
use std::process::Abort;
use std::test::Fail;

/// What a write answers, and the count of faults after it.
fn write(disk: &mut FileDisk, area: Area, at: u64, bytes: &[u8]) -> (Result<(), Failed>, u64) {
    let answer = disk.write_at(area, at, bytes);
    (answer, disk.faults())
}

/// What a cut answers, and the count of faults after it.
fn cut(disk: &mut FileDisk, area: Area, len: u64) -> (Result<(), Failed>, u64) {
    let answer = disk.cut(area, len);
    (answer, disk.faults())
}

/// What a sync answers, and the count of faults after it.
fn sync(disk: &mut FileDisk, area: Area) -> (Result<(), Failed>, u64) {
    let answer = disk.sync(area);
    (answer, disk.faults())
}

/// The first eight bytes from a place on, with a dot for each that is missing; nothing where the read failed.
fn bytes_at(disk: &mut FileDisk, area: Area, at: u64) -> Option<[u8; 8]> {
    let mut piece = *b"........";
    disk.read_at(area, at, &mut piece).ok()?;
    Some(piece)
}

/// Makes an empty folder in the place of what is there.
fn empty_folder<R: Files<File = File> + AllocGlobal>(rt: &R, name: &str) -> Result<(), Fail> {
    let _ = fs::remove_dir_all(rt, name);
    fs::create_dir(rt, name)?;
    Ok(())
}

/// A folder whose file `a` is a device without room.
const FULL: &str = "outer_tests_full";

/// Calls of a disk whose area A has no room, and whose area B has.
fn use_full<R: Files<File = File> + AllocGlobal + Abort>(rt: &R) -> Result<(), Fail> {
    let mut disk = FileDisk::open(rt, FULL)?;
    assert_eq!(rt; write(&mut disk, Area::B, 0, b"abcd"), (Ok(()), 0));
    assert_eq!(rt; write(&mut disk, Area::A, 0, b"xyz"), (Err(Failed), 1));
    assert_eq!(rt; write(&mut disk, Area::A, 0, b""), (Ok(()), 1));
    assert_eq!(rt; cut(&mut disk, Area::A, 0), (Err(Failed), 2));
    assert_eq!(rt; sync(&mut disk, Area::A), (Err(Failed), 3));
    assert_eq!(rt; write(&mut disk, Area::B, 3, b"DEF"), (Ok(()), 3));
    assert_eq!(rt; sync(&mut disk, Area::B), (Ok(()), 3));
    assert_eq!(rt; bytes_at(&mut disk, Area::B, 0), Some(*b"abcDEF.."));
    Ok(())
}

#[test]
fn a_device_without_room_fails_each_change(rt: HostRuntime) -> Result<(), Fail> {
    empty_folder(&rt, FULL)?;
    symlink(&rt, "/dev/full", format!(in rt.alloc(); "{FULL}/a")?)?;
    use_full(&rt)?;
    fs::remove_dir_all(&rt, FULL)?;
    Ok(())
}

const LONG: &str = "outer_tests_long";

/// The greatest length that the system gives the file of area A.
fn greatest_length(disk: &mut FileDisk) -> u64 {
    let mut length = 0;
    let mut bit = 1 << 62;
    for _ in 0..63 {
        let longer = length | bit;
        if disk.cut(Area::A, longer).is_ok() {
            length = longer;
        }
        bit /= 2;
    }
    length
}

/// Writes over the greatest length of a file: the system takes those bytes that have room, and none more.
fn write_over_the_end<R: Files<File = File> + AllocGlobal + Abort>(
    rt: &R,
    greatest: u64,
) -> Result<(), Fail> {
    let mut disk = FileDisk::open(rt, LONG)?;
    let last = greatest.saturating_sub(3);
    assert_eq!(rt; cut(&mut disk, Area::A, 0), (Ok(()), 0));
    assert_eq!(rt; write(&mut disk, Area::A, 0, b"abcd"), (Ok(()), 0));
    assert_eq!(rt;
        write(&mut disk, Area::A, last, b"uvwxyz"),
        (Err(Failed), 1)
    );
    assert_eq!(rt; bytes_at(&mut disk, Area::A, last), Some(*b"uvw....."));
    assert_eq!(rt; bytes_at(&mut disk, Area::A, 0), Some(*b"abcd\0\0\0\0"));
    assert_eq!(rt; write(&mut disk, Area::A, greatest, b"x"), (Err(Failed), 2));
    assert_eq!(rt;
        write(&mut disk, Area::A, u64::MAX, b"xy"),
        (Err(Failed), 3)
    );
    assert_eq!(rt; disk.len(Area::A), Ok(greatest));
    assert_eq!(rt; write(&mut disk, Area::A, last, b"XYZ"), (Ok(()), 3));
    assert_eq!(rt; bytes_at(&mut disk, Area::A, last), Some(*b"XYZ....."));
    Ok(())
}

#[test]
fn a_short_write_goes_on_until_there_is_no_room(rt: HostRuntime) -> Result<(), Fail> {
    empty_folder(&rt, LONG)?;
    let greatest = greatest_length(&mut FileDisk::open(&rt, LONG)?);
    assert!(rt; greatest > 1_000_000, "at {greatest}");
    write_over_the_end(&rt, greatest)?;
    fs::remove_dir_all(&rt, LONG)?;
    Ok(())
}

const SHUT: &str = "outer_tests_shut";

#[test]
fn a_folder_that_cannot_be_written_is_not_opened(rt: HostRuntime) -> Result<(), Fail> {
    empty_folder(&rt, SHUT)?;
    let below = format!(in rt.alloc(); "{SHUT}/b")?;
    fs::write(&rt, below.as_str(), "abc")?;
    // Below a regular file there are no files.
    let Err(error) = FileDisk::open(&rt, below.as_str()) else {
        return Err(Fail::from("a disk below a file"));
    };
    assert_eq!(rt; error.kind(), ErrorKind::NotADirectory);
    // One of the two names is that of a folder.
    fs::create_dir(&rt, format!(in rt.alloc(); "{SHUT}/a")?)?;
    let Err(error) = FileDisk::open(&rt, SHUT) else {
        return Err(Fail::from("a disk of a folder in the place of a file"));
    };
    assert_eq!(rt; error.kind(), ErrorKind::IsADirectory);
    assert_eq!(rt; fs::read_to_string(&rt, below.as_str())?.as_str(), "abc");
    fs::remove_dir_all(&rt, SHUT)?;
    Ok(())
}
