//! Files and sinks, in memory and outside.

use crate::comparison::compare;
use outside::{
    DropSink, Failed, FileSink, Files, Gate, MemFiles, MemSink, OpenGate, OsFiles, ReadFault, Sink,
    StdSink, SureFiles, SureSink, read_whole, write_all,
};
use pn_types::NoMemory;
use std::alloc::Global;
use std::test::Fail;
use std::{fs, rt};

/// Returns whether a reading of at most `most` bytes gives these.
fn gives<F: Files>(alloc: Global, files: &mut F, name: &str, most: u64, bytes: &[u8]) -> bool {
    match read_whole(alloc, files, name, most) {
        Ok(read) => read.as_slice() == bytes,
        Err(_) => false,
    }
}

/// Returns the fault of a reading of at most `most` bytes, if it has one.
fn fault_of<F: Files>(alloc: Global, files: &mut F, name: &str, most: u64) -> Option<ReadFault> {
    read_whole(alloc, files, name, most).err()
}

/// What is given, in this order: a file twice, and one that is absent.
const GIVEN: [(&str, Option<&[u8]>); 3] = [
    ("a", Some(b"first")),
    ("b", None),
    ("a", Some(b"second")),
];

fn mem_files(alloc: Global) -> Result<MemFiles, NoMemory> {
    let mut files = MemFiles::new(alloc);
    for (name, bytes) in GIVEN {
        let bytes = match bytes {
            Some(bytes) => Some(Vec::from_slice(alloc, bytes)?),
            None => None,
        };
        files.give(alloc, name, bytes, Vec::new(alloc))?;
    }
    Ok(files)
}

/// Returns whether the file that was given twice reads as it was given last, and one that wasn't given is empty; the faults of a
/// reading of too many bytes and of the absent file; and the faults that are counted.
fn read_given(alloc: Global) -> Result<([bool; 2], [Option<ReadFault>; 2], [u64; 2]), NoMemory> {
    let mut files = mem_files(alloc)?;
    let given = [
        gives(alloc, &mut files, "a", 6, b"second"),
        gives(alloc, &mut files, "c", 0, b""),
    ];
    let faults = [
        fault_of(alloc, &mut files, "a", 5),
        fault_of(alloc, &mut files, "b", 5),
    ];
    Ok((given, faults, [files.faults("a"), files.faults("b")]))
}

#[test]
fn files_in_memory_give_what_they_were_given(rt: HostRuntime) {
    let faults = [Some(ReadFault::TooLong), Some(ReadFault::Outside)];
    compare(&rt, read_given(rt.alloc()), Ok(([true; 2], faults, [0, 1])));
}

/// Returns whether a file reads as it was given, and what readings return at its end and for an unknown file, with what was read at
/// the end.
fn read_sure(alloc: Global) -> Result<(bool, [Result<usize, Failed>; 2], [u8; 4]), NoMemory> {
    let mut files = SureFiles::new(alloc);
    files.give(alloc, "a", Vec::from_slice(alloc, b"some bytes")?)?;
    let given = gives(alloc, &mut files, "a", 10, b"some bytes");
    let mut piece = [0; 4];
    let behind = files.read_at("a", 7, &mut piece);
    let unknown = files.read_at("b", 0, &mut piece);
    Ok((given, [behind, unknown], piece))
}

#[test]
fn sure_files_give_what_they_were_given(rt: HostRuntime) {
    compare(
        &rt,
        read_sure(rt.alloc()),
        Ok((true, [Ok(3), Ok(0)], *b"tes\0")),
    );
}

/// Returns `count` bytes, which repeat the numbers below 251.
fn counted(alloc: Global, count: u32) -> Result<Vec<u8>, NoMemory> {
    let mut bytes = Vec::new(alloc);
    for number in 0..count {
        bytes.push((number % 251) as u8)?;
    }
    Ok(bytes)
}

/// Returns the fault that is returned, and how many faults are counted, where this reading of a file of two pieces fails.
fn failing_reading(alloc: Global, call: u64) -> Result<(Option<ReadFault>, u64), NoMemory> {
    let mut files = MemFiles::new(alloc);
    let fails = Vec::from_slice(alloc, &[call])?;
    files.give(alloc, "a", Some(counted(alloc, 70_000)?), fails)?;
    let fault = read_whole(alloc, &mut files, "a", 70_000).err();
    Ok((fault, files.faults("a")))
}

/// A file of two pieces is read by three calls, of which the last finds the end.
#[test]
fn each_failing_reading_is_reported(rt: HostRuntime) {
    let alloc = rt.alloc();
    let failed = Ok((Some(ReadFault::Outside), 1));
    let readings = [
        failing_reading(alloc, 0),
        failing_reading(alloc, 1),
        failing_reading(alloc, 2),
        failing_reading(alloc, 3),
    ];
    compare(&rt, readings, [failed, failed, failed, Ok((None, 0))]);
}

/// Returns whether twenty bytes are written five at a time where this writing fails, how many of them the sink has then, and its
/// faults.
fn failing_writing(alloc: Global, call: u64) -> Result<(bool, usize, u64), NoMemory> {
    let bytes = b"abcdefghijklmnopqrst";
    let mut sink = MemSink::new(alloc, 20, 5, Vec::from_slice(alloc, &[call])?)?;
    let written = write_all(&mut sink, bytes);
    let count = if bytes.starts_with(sink.bytes()) {
        sink.bytes().len()
    } else {
        usize::MAX
    };
    Ok((written.is_ok(), count, sink.faults()))
}

#[test]
fn each_failing_writing_leaves_what_came_before(rt: HostRuntime) {
    let alloc = rt.alloc();
    let writings = [
        failing_writing(alloc, 0),
        failing_writing(alloc, 1),
        failing_writing(alloc, 3),
        failing_writing(alloc, 4),
    ];
    let due = [
        Ok((false, 0, 1)),
        Ok((false, 5, 1)),
        Ok((false, 15, 1)),
        Ok((true, 20, 0)),
    ];
    compare(&rt, writings, due);
}

/// Returns what two writings return where there is room for the first, whether the sink has that one alone, and its faults.
fn overfill(alloc: Global) -> Result<([Result<(), Failed>; 2], bool, u64), NoMemory> {
    let mut full = SureSink::new(alloc, 3)?;
    let written = [write_all(&mut full, b"abc"), write_all(&mut full, b"d")];
    Ok((written, full.bytes() == b"abc".as_slice(), full.faults()))
}

#[test]
fn a_sink_without_room_fails(rt: HostRuntime) {
    compare(
        &rt,
        overfill(rt.alloc()),
        Ok(([Ok(()), Err(Failed)], true, 1)),
    );
}

/// Returns what one writing and a whole one return where no piece is taken, and the sink's faults.
fn write_to_idle(
    alloc: Global,
) -> Result<(Result<usize, Failed>, Result<(), Failed>, u64), NoMemory> {
    let mut idle = MemSink::new(alloc, 3, 0, Vec::new(alloc))?;
    let first = idle.write(b"abc");
    let second = write_all(&mut idle, b"abc");
    Ok((first, second, idle.faults()))
}

#[test]
fn a_sink_without_pieces_fails(rt: HostRuntime) {
    compare(&rt, write_to_idle(rt.alloc()), Ok((Ok(0), Err(Failed), 2)));
}

#[test]
fn what_is_dropped_is_accepted(rt: HostRuntime) {
    compare(&rt, write_all(&mut DropSink, b"abc"), Ok(()));
    OpenGate.pass(0, 0);
}

#[test]
fn an_absent_file_fails(rt: HostRuntime) {
    let mut files = OsFiles::new(rt);
    let absent = fault_of(rt.alloc(), &mut files, "absent", 100);
    // There is one count for all names.
    let faults = files.faults("written");
    compare(&rt, (absent, faults), (Some(ReadFault::Outside), 1));
}

/// Returns whether a file is written in these pieces.
fn is_written<R: rt::Files + Drop>(alloc: Global, rt: R, name: &str, pieces: &[&[u8]]) -> bool {
    let Ok(name) = String::from_str(alloc, name) else {
        return false;
    };
    let mut sink = FileSink::new(rt, name);
    for piece in pieces {
        if write_all(&mut sink, piece).is_err() {
            return false;
        }
    }
    true
}

#[test]
fn a_written_file_is_read_back(rt: HostRuntime) {
    let alloc = rt.alloc();
    let written = is_written(alloc, rt, "written", &[b"some ", b"bytes"]);
    let read = gives(alloc, &mut OsFiles::new(rt), "written", 100, b"some bytes");
    let removed = fs::remove_file(&rt, "written").is_ok();
    compare(&rt, [written, read, removed], [true; 3]);
}

#[test]
fn standard_output_is_written(rt: HostRuntime) {
    let written = write_all(&mut StdSink::new(rt), b"to standard output\n");
    compare(&rt, written, Ok(()));
}

/// A file of two pieces, under a name with blanks at its ends.
#[test]
fn a_long_file_with_an_odd_name_is_read_back(rt: HostRuntime) -> Result<(), Fail> {
    let alloc = rt.alloc();
    let bytes = counted(alloc, 70_000)?;
    let written = is_written(alloc, rt, " odd name ", &[&bytes]);
    let mut files = OsFiles::new(rt);
    let read = gives(alloc, &mut files, " odd name ", 70_000, &bytes);
    let trimmed = fault_of(alloc, &mut files, "odd name", 70_000);
    let removed = fs::remove_file(&rt, " odd name ").is_ok();
    compare(
        &rt,
        (written, read, trimmed, removed),
        (true, true, Some(ReadFault::Outside), true),
    );
    Ok(())
}
