//! Files in memory and real ones, read and written.

ghost use Rattle.tqd_base.specs.World.{HasNoSlot};

use std::alloc::Global;
use std::fs;
use std::test::Fail;
use tqd_base::{
    Desk, DeskCall, DeskStop, Memory, MemoryDesk, ReadStop, RealDesk, SureDesk, read_all,
};

// Makes a file of these bytes, and prints them.
fn copy_out<D: Desk>(alloc: Global, desk: &mut D, name: &str, bytes: &[u8]) -> Result<(), DeskStop>
    requires { HasNoSlot (D.state desk.old).world name.now }
{
    let slot = desk.make(alloc, name)?;
    desk.put(slot, bytes)?;
    desk.out(bytes)?;
    desk.close(slot)
}

// Whether what was read is these bytes, or the same stop.
fn is_read(read: Result<Vec<u8>, ReadStop>, want: Result<&[u8], ReadStop>) -> bool {
    match read {
        Ok(bytes) => want == Ok(bytes.as_slice()),
        Err(stop) => want == Err(stop),
    }
}

// Whether a memory desk with the file f alone, which is set twice, reads a file so, and keeps its files.
fn memory_reads(
    alloc: Global,
    name: &str,
    limit: u64,
    want: Result<&[u8], ReadStop>,
) -> Result<bool, Memory> {
    let mut desk = MemoryDesk::new(alloc)?;
    desk.set_file("f", b"old")?;
    desk.set_file("f", b"abc")?;
    desk.piece(1);
    let read = read_all(alloc, &mut desk, name, limit);
    let kept = desk.file("f") == Some(b"abc".as_slice()) && desk.file("g").is_none();
    Ok(kept && is_read(read, want))
}

#[test]
fn a_file_is_read_in_pieces_up_to_the_limit(rt: HostRuntime) {
    for (name, limit, want) in [
        ("f", 3, Ok(b"abc".as_slice())),
        ("f", 2, Err(ReadStop::Size)),
        ("g", 9, Err(ReadStop::Fault)),
    ] {
        let read = memory_reads(rt.alloc(), name, limit, want);
        assert_eq!(rt; read, Ok(true), "{name} up to {limit}");
    }
}

// Whether a desk that is sure of its files, with the file f alone, reads a file so, and keeps it.
fn sure_reads(alloc: Global, name: &str, want: Result<&[u8], ReadStop>) -> Result<bool, Memory> {
    let mut desk = SureDesk::new(alloc)?;
    desk.set_file("f", b"abc")?;
    desk.piece(2);
    let read = read_all(alloc, &mut desk, name, 9);
    Ok(desk.file("f") == Some(b"abc".as_slice()) && is_read(read, want))
}

#[test]
fn a_name_that_is_not_there_is_a_fault_or_empty(rt: HostRuntime) {
    for (name, want) in [("f", b"abc".as_slice()), ("g", b"".as_slice())] {
        let read = sure_reads(rt.alloc(), name, Ok(want));
        assert_eq!(rt; read, Ok(true), "{name}");
    }
    let read = memory_reads(rt.alloc(), "g", 9, Err(ReadStop::Fault));
    assert_eq!(rt; read, Ok(true));
}

#[test]
fn a_planned_read_fails(rt: HostRuntime) -> Result<(), Fail> {
    let alloc = rt.alloc();
    for (call, nth) in [
        (DeskCall::Open, 1),
        (DeskCall::Take, 1),
        (DeskCall::Take, 4),
    ] {
        let mut desk = MemoryDesk::new(alloc)?;
        desk.set_file("f", b"abc")?;
        desk.piece(1);
        desk.fail(call, nth)?;
        let read = read_all(alloc, &mut desk, "f", 3);
        assert_eq!(rt; read.err(), Some(ReadStop::Fault), "at {call:?}");
        let all = read_all(alloc, &mut desk, "f", 3)?;
        assert_eq!(rt; all.len(), 3, "after {call:?}");
    }
    Ok(())
}

#[test]
fn a_planned_write_adds_half(rt: HostRuntime) -> Result<(), Fail> {
    let alloc = rt.alloc();
    let whole = b"abcde".as_slice();
    let half = b"ab".as_slice();
    let none = b"".as_slice();
    for (call, file, output) in [
        (DeskCall::Make, None, none),
        (DeskCall::Put, Some(half), none),
        (DeskCall::Out, Some(whole), half),
        (DeskCall::Close, Some(whole), whole),
    ] {
        let mut desk = MemoryDesk::new(alloc)?;
        desk.fail(call, 1)?;
        let copied = copy_out(alloc, &mut desk, "t", whole);
        assert_eq!(rt; copied, Err(DeskStop::Failed), "at {call:?}");
        assert_eq!(rt; desk.file("t"), file, "at {call:?}");
        assert_eq!(rt; desk.output(), output, "at {call:?}");
    }
    Ok(())
}

#[test]
fn a_sure_desk_takes_all(rt: HostRuntime) -> Result<(), Fail> {
    let alloc = rt.alloc();
    let mut desk = SureDesk::new(alloc)?;
    assert_eq!(rt; copy_out(alloc, &mut desk, "t", b"abcde"), Ok(()));
    assert_eq!(rt; desk.file("t"), Some(b"abcde".as_slice()));
    assert_eq!(rt; desk.output(), b"abcde".as_slice());
    Ok(())
}

#[test]
fn a_real_file_is_made_and_read_again(rt: HostRuntime) -> Result<(), Fail> {
    let alloc = rt.alloc();
    let name = "a_real_file_is_made_and_read_again";
    let mut desk = RealDesk::new(&rt, alloc);
    assert_eq!(rt; copy_out(alloc, &mut desk, name, b"abcde"), Ok(()));
    let all = read_all(alloc, &mut desk, name, 5)?;
    assert_eq!(rt; all.as_slice(), b"abcde".as_slice());
    assert_eq!(rt;
        read_all(alloc, &mut desk, name, 4).err(),
        Some(ReadStop::Size)
    );
    fs::remove_file(&rt, name)?;
    assert_eq!(rt;
        read_all(alloc, &mut desk, name, 5).err(),
        Some(ReadStop::Fault)
    );
    Ok(())
}
