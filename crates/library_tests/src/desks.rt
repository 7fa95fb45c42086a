//! Desks and sinks: in memory, quiet, and over the system.
use outside::{
    Desk, Failed, FileDesk, MemoryDesk, MemorySink, QuietDesk, QuietSink, Sink, StdSink,
};
use std::alloc::Global;
use std::fs;
use std::process::Abort;
use std::test::Fail;

/// What two calls took of a desk, or gave.
type Counts = Result<(usize, usize), Failed>;

/// Begins a file and reads twice, two bytes at most each time.
fn read_twice<D: Desk>(desk: &mut D, name: &str, into: &mut [u8; 4]) -> Counts {
    desk.begin_read(name)?;
    let (front, back) = into.split_at_mut(2);
    let first = desk.read(front)?;
    Ok((first, desk.read(back)?))
}

/// The same, and the four bytes that are there then.
fn read<D: Desk>(desk: &mut D, name: &str) -> (Counts, [u8; 4]) {
    let mut into = [0; 4];
    (read_twice(desk, name, &mut into), into)
}

/// Begins an output and writes two pieces.
fn write<D: Desk>(desk: &mut D, name: &str, first: &[u8], second: &[u8]) -> Counts {
    desk.begin_write(name)?;
    let first = desk.write(first)?;
    Ok((first, desk.write(second)?))
}

/// Begins a file and adds its new bytes, then reads once.
fn read_replaced(desk: &mut MemoryDesk, piece: &mut [u8; 4]) -> Counts {
    desk.begin_read("a")?;
    desk.add("a", &[9]).map_err(|_| Failed)?;
    Ok((desk.read(piece)?, 0))
}

/// Whether the output `i` has that name and these bytes.
fn is_output(desk: &MemoryDesk, i: u32, name: &str, bytes: &[u8]) -> bool {
    i < desk.outputs() && desk.output_name(i) == name && desk.output(i) == bytes
}

/// Reads a file that is not there, and one whose bytes are replaced; writes an output that fits, one that does not, and
/// one too many.
fn uses_memory(rt: &impl Abort, desk: &mut MemoryDesk) {
    let mut into = [0; 4];
    let missing = read(desk, "b");
    let replaced = read_replaced(desk, &mut into);
    for (got, want) in rows! {
        (missing, (Err(Failed), [0; 4]));
        ((replaced, into), (Ok((3, 0)), [1, 2, 3, 0]));
        (read(desk, "a"), (Ok((1, 0)), [9, 0, 0, 0]));
        ((write(desk, "x", &[1, 2], &[3]), [0; 4]), (Ok((2, 1)), [0; 4]));
        ((write(desk, "yz", &[4, 5], &[6]), [0; 4]), (Err(Failed), [0; 4]));
        ((write(desk, "", &[], &[]), [0; 4]), (Err(Failed), [0; 4]));
    } {
        assert_eq!(rt; got, want);
    }
    assert!(rt; is_output(desk, 0, "x", &[1, 2, 3]) && is_output(desk, 1, "yz", &[4, 5]));
    assert_eq!(rt; desk.outputs(), 2);
}

#[test]
fn memory_desk_reads_and_writes(rt: HostRuntime) -> Result<(), Fail> {
    let mut desk = MemoryDesk::make(rt.alloc(), 2, 8, Vec::new(rt.alloc()))?;
    desk.add("a", &[1, 2, 3])?;
    uses_memory(&rt, &mut desk);
    Ok(())
}

/// Makes calls until one fails, four at most, and counts those that succeed.
fn make_calls(desk: &mut MemoryDesk, count: &mut u64) -> Result<(), Failed> {
    let mut piece = [0; 1];
    desk.begin_read("a")?;
    *count = 1;
    desk.read(&mut piece)?;
    *count = 2;
    desk.begin_write("o")?;
    *count = 3;
    desk.write(&piece)?;
    *count = 4;
    Ok(())
}

/// How many calls succeed where the one of that number fails.
fn calls_before(alloc: Global, number: u64) -> Result<u64, Fail> {
    let mut desk = MemoryDesk::make(alloc, 1, 2, vec![in alloc; number]?)?;
    desk.add("a", &[7])?;
    let mut count = 0;
    let _ = make_calls(&mut desk, &mut count);
    Ok(count)
}

#[test]
fn calls_fail_by_number(rt: HostRuntime) -> Result<(), Fail> {
    for number in 1..6u64 {
        assert_eq!(rt; calls_before(rt.alloc(), number)?, number - 1);
    }
    Ok(())
}

#[test]
fn memory_sink_fails(rt: HostRuntime) -> Result<(), Fail> {
    let mut sink = MemorySink::make(rt.alloc(), 3, vec![in rt.alloc(); 2]?)?;
    let fails = Err(Failed);
    for (piece, answer) in [(1, Ok(1)), (2, fails), (3, Ok(1)), (4, Ok(1)), (5, fails)] {
        assert_eq!(rt; sink.write(&[piece]), answer);
    }
    assert_eq!(rt; sink.bytes(), [1, 3, 4].as_slice());
    Ok(())
}

/// Reads the input, and as the input a file; and writes.
#[test]
fn quiet_ones_never_fail(rt: HostRuntime) -> Result<(), Fail> {
    let mut into = [0; 4];
    let mut desk = QuietDesk::make(vec![in rt.alloc(); 1, 2, 3]?);
    let first = desk.read(&mut into).map(|n| (n, 0));
    for (got, want) in rows! {
        ((first, into), (Ok((0, 0)), [0; 4]));
        (read(&mut desk, "-"), (Ok((2, 1)), [1, 2, 3, 0]));
        (read(&mut desk, "a"), (Ok((2, 1)), [1, 2, 3, 0]));
        ((write(&mut desk, "o", &[1, 2], &[3]), into), (Ok((2, 1)), into));
        ((QuietSink::make().write(&[1, 2, 3]).map(|n| (n, 0)), into), (Ok((3, 0)), into));
    } {
        assert_eq!(rt; got, want);
    }
    Ok(())
}

#[test]
fn files_and_streams(rt: HostRuntime) -> Result<(), Fail> {
    let none = [0; 4];
    let mut desk = FileDesk::make(rt);
    let rows = rows! {
        (read(&mut desk, "missing/input"), (Err(Failed), none));
        ((write(&mut desk, "missing/output", b"", b""), none), (Err(Failed), none));
        ((write(&mut desk, "outside-test-output", b"ab", b"c"), none), (Ok((2, 1)), none));
        (read(&mut desk, "outside-test-output"), (Ok((2, 1)), *b"abc\0"));
        ((StdSink::out(rt).write(b"").map(|n| (n, 0)), none), (Ok((0, 0)), none));
        ((StdSink::err(rt).write(b"err\n").map(|n| (n, 0)), none), (Ok((4, 0)), none));
    };
    fs::remove_file(&rt, "outside-test-output")?;
    for (got, want) in rows {
        assert_eq!(rt; got, want);
    }
    assert_eq!(rt;
        format!(in rt.alloc(); "{Failed}")?.as_str(),
        "outside fault"
    );
    Ok(())
}
