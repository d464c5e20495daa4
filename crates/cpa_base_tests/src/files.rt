//! What no contract says of files and sinks: that calls succeed, and what the edge does.

use crate::first_failure::tell;
use cpa_io::{
    Files, LoadFault, MemoryFiles, MemorySink, RealFiles, RealSink, Sink, SinkFault, put_all,
};
use std::alloc::Global;
use std::test::Fail;
use std::{fs, io};

/// What a case is about, the name of a file, the most bytes that it may have, and what a load of it gives.
type Load = (
    &'static str,
    &'static str,
    u8,
    Result<&'static str, LoadFault>,
);

/// The first load of these files that gives something else.
fn wrong_load<F: Files>(files: &mut F, alloc: Global, loads: &[Load]) -> Option<&'static str> {
    let mut wrong = None;
    for (case, name, most, want) in loads {
        let right = match (files.load(alloc, name, u64::from(*most)), want) {
            (Ok(bytes), Ok(text)) => bytes.as_slice() == text.as_bytes(),
            (Err(fault), Err(wanted)) => fault == *wanted,
            _ => false,
        };
        wrong = tell(wrong, *case, right);
    }
    wrong
}

const REAL_LOADS: [Load; 3] = [
    ("as long as may be", "four", 4, Ok("abcd")),
    ("too long", "four", 3, Err(LoadFault::TooLong)),
    ("no file", "none", 4, Err(LoadFault::Failed)),
];

#[test]
fn loads_real_files_of_the_size(rt: HostRuntime) -> Result<(), Fail> {
    fs::write(&rt, "four", "abcd")?;
    let mut files = RealFiles::new(&rt, rt.alloc());
    let wrong = wrong_load(&mut files, rt.alloc(), &REAL_LOADS);
    assert!(rt; wrong.is_none(), "{wrong:?}");
    Ok(())
}

#[test]
fn sends_to_standard_output(rt: HostRuntime) -> Result<(), Fail> {
    let mut sink = RealSink::new(io::writer(&rt));
    let nothing = sink.put("".as_bytes());
    let all = put_all(&mut sink, "ab".as_bytes());
    assert!(rt; nothing == Ok(0) && all.is_ok());
    Ok(())
}

/// The files are `a`, `b` and `a` once more; loads 2 and 3 fail.
const MEMORY_LOADS: [Load; 7] = [
    ("the first of a name", "a", 9, Ok("one")),
    ("as long as may be", "b", 4, Ok("abcd")),
    ("load 2", "a", 9, Err(LoadFault::Failed)),
    ("load 3", "b", 3, Err(LoadFault::Failed)),
    ("too long", "b", 3, Err(LoadFault::TooLong)),
    ("no file", "c", 9, Err(LoadFault::Failed)),
    ("once more", "a", 3, Ok("one")),
];

#[test]
fn loads_files_in_memory(rt: HostRuntime) -> Result<(), Fail> {
    let alloc = rt.alloc();
    let mut held = Vec::new(alloc);
    for (name, content) in [("a", "one"), ("b", "abcd"), ("a", "two")] {
        let bytes = Vec::from_slice(alloc, content.as_bytes())?;
        held.push((String::from_str(alloc, name)?, bytes))?;
    }
    let mut files = MemoryFiles::new(alloc, held, vec![in alloc; 2, 3]?);
    let wrong = wrong_load(&mut files, alloc, &MEMORY_LOADS);
    assert!(rt; wrong.is_none(), "{wrong:?}");
    Ok(())
}

/// The sink takes 8 bytes at once, and its puts 1 and 3 of some bytes fail.
#[test]
fn takes_pieces_in_memory(rt: HostRuntime) -> Result<(), Fail> {
    let alloc = rt.alloc();
    let mut sink = MemorySink::new(alloc, 8, vec![in alloc; 1, 3]?);
    let mut wrong = None;
    for (piece, want) in [
        ("abcdefghij", Ok(8)),
        ("", Ok(0)),
        ("ij", Err(SinkFault::Failed)),
        ("ij", Ok(2)),
        ("", Ok(0)),
        ("k", Err(SinkFault::Failed)),
        ("k", Ok(1)),
    ] {
        wrong = tell(wrong, piece, sink.put(piece.as_bytes()) == want);
    }
    wrong = tell(wrong, "sent", sink.sent() == "abcdefghijk".as_bytes());
    assert!(rt; wrong.is_none(), "{wrong:?}");
    Ok(())
}

/// Each call is handed all that is left, so the sink's own pieces decide what was sent.
#[test]
fn sends_all_bytes(rt: HostRuntime) -> Result<(), Fail> {
    let alloc = rt.alloc();
    let line = "task a cpu period 10 jitter 0 distance 0 best 2 worst 2\n";
    let bytes = line.as_bytes();
    let mut wrong = None;
    for (case, piece, failing, want, sent) in [
        ("put 5 of 8 bytes", 8, 5, Err(SinkFault::Failed), 40),
        ("the first put", 1, 0, Err(SinkFault::Failed), 0),
        ("the last put", 1, 55, Err(SinkFault::Failed), 55),
        ("behind the last byte", 1, 56, Ok(()), 56),
        ("behind the last piece", 8, 7, Ok(()), 56),
        ("one piece", 99, 1, Ok(()), 56),
    ] {
        let mut sink = MemorySink::new(alloc, piece, vec![in alloc; failing]?);
        let right = put_all(&mut sink, bytes) == want;
        let is_prefix = sink.sent().len() == sent && bytes.starts_with(sink.sent());
        wrong = tell(wrong, case, right && is_prefix);
    }
    assert!(rt; wrong.is_none(), "{wrong:?}");
    Ok(())
}
