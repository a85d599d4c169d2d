use outer_world::{
    Disk, Failed, Gate, Gone, MemDisk, MemSink, MemSource, NowGate, ReadAllFault, Sink, Source,
    read_all, write_all,
};
use own_base::SessionNo;
use std::test::Fail;

#[test]
fn a_source_gives_its_bytes(rt: HostRuntime) -> Result<(), Fail> {
    let mut source = MemSource::new(rt.alloc(), b"abcdef", &[1])?;
    let mut piece = *b"..";
    assert_eq!(rt; source.read(&mut piece), Ok(2));
    assert_eq!(rt; piece.as_slice(), b"ab".as_slice());
    assert_eq!(rt; source.read(&mut piece), Err(Failed));
    let bytes = read_all(rt.alloc(), &mut source, 3).ok().ok_or("no bytes")?;
    assert_eq!(rt; bytes.as_slice(), b"cde".as_slice());
    let mut failing = MemSource::new(rt.alloc(), b"", &[0])?;
    let fault = read_all(rt.alloc(), &mut failing, 1).err();
    assert_eq!(rt; fault, Some(ReadAllFault::Failed));
    Ok(())
}

#[test]
fn a_sink_holds_what_is_written(rt: HostRuntime) -> Result<(), Fail> {
    let mut sink = MemSink::new(rt.alloc(), &[1])?;
    assert_eq!(rt; sink.write(b"ab"), Ok(2));
    assert_eq!(rt; write_all(&mut sink, b"cd"), Err(Failed));
    assert_eq!(rt; write_all(&mut sink, b"ef"), Ok(()));
    assert_eq!(rt; sink.bytes(), b"abef".as_slice());
    Ok(())
}

#[test]
fn a_source_gives_pieces(rt: HostRuntime) -> Result<(), Fail> {
    let mut source = MemSource::in_pieces(rt.alloc(), b"abcde", &[1], 2)?;
    let mut piece = *b"....";
    assert_eq!(rt; source.read(&mut piece), Ok(2));
    assert_eq!(rt; piece.as_slice(), b"ab..".as_slice());
    assert_eq!(rt; source.read(&mut piece), Err(Failed));
    let bytes = read_all(rt.alloc(), &mut source, 9).ok().ok_or("no bytes")?;
    assert_eq!(rt; bytes.as_slice(), b"cde".as_slice());
    Ok(())
}

#[test]
fn a_sink_takes_pieces(rt: HostRuntime) -> Result<(), Fail> {
    let mut sink = MemSink::in_pieces(rt.alloc(), &[1], 2)?;
    assert_eq!(rt; sink.write(b"abc"), Ok(2));
    assert_eq!(rt; write_all(&mut sink, b"cd"), Err(Failed));
    assert_eq!(rt; write_all(&mut sink, b"cdefg"), Ok(()));
    assert_eq!(rt; sink.bytes(), b"abcdefg".as_slice());
    Ok(())
}

#[test]
fn a_new_disk_has_no_fault(rt: HostRuntime) -> Result<(), Fail> {
    let disk = MemDisk::new(rt.alloc(), &[0])?;
    assert_eq!(rt; disk.faults(), 0);
    Ok(())
}

#[test]
fn the_open_gate_lets_pass(rt: HostRuntime) {
    let gate = NowGate;
    assert_eq!(rt; gate.before(SessionNo(1), 1), Gone::Passed);
    gate.after(SessionNo(1), 1);
}
