use cube_outside::{
    Extent, FileFault, Files, HostFiles, HostSink, MemoryFiles, MemorySink, Sink, SinkFault,
};
use std::alloc::{AllocError, Global};
use std::test::Fail;
use std::{fs, process};

#[test]
fn host_files_read_a_file_or_its_front_and_count_one_that_is_missing(
    rt: HostRuntime,
) -> Result<(), Fail> {
    let alloc = rt.alloc();
    // more than three of the pieces in which a file is read
    let text = vec![in alloc; b'x'; 24_583]?;
    let path = format!(in alloc; "/tmp/cube_rows_{}", process::id(rt.process()))?;
    fs::write(&rt, path.as_str(), text.as_slice())?;
    let mut files = HostFiles::new(alloc, &rt);
    let whole = files.read(alloc, path.as_str(), Extent::Whole);
    let front = files.read(alloc, path.as_str(), Extent::Front(16_385));
    let all = files.read(alloc, path.as_str(), Extent::Front(24_584));
    fs::remove_file(&rt, path.as_str())?;
    assert_eq!(rt; whole?.as_slice(), text.as_slice());
    assert_eq!(rt; front?.as_slice(), &text[..16_385]);
    assert_eq!(rt; all?.as_slice(), text.as_slice());
    assert_eq!(rt; files.faults(), 0);
    let missing = files.read(alloc, path.as_str(), Extent::Whole).err();
    assert_eq!(rt; missing, Some(FileFault::Failed));
    assert_eq!(rt; (files.faults(), files.missed()), (1, path.as_bytes()));
    Ok(())
}

// Each call's name and extent, the bytes that it gives, and the name of the last that failed.
const READS: [(&str, Extent, Option<&[u8]>, &[u8]); 7] = [
    ("model.txt", Extent::Whole, Some(b"MODEL 1;"), b""),
    ("a.txt", Extent::Whole, Some(b"new"), b""),
    ("a.txt", Extent::Whole, None, b"a.txt"),
    ("a.txt", Extent::Front(2), Some(b"ne"), b"a.txt"),
    ("a.txt", Extent::Front(4), Some(b"new"), b"a.txt"),
    ("a.txt", Extent::Front(0), Some(b""), b"a.txt"),
    ("b.txt", Extent::Front(1), None, b"b.txt"),
];

// Files in memory give what was put, and fail where they were told to.
fn memory_reads(alloc: Global) -> Result<bool, AllocError> {
    let mut files = MemoryFiles::new(alloc);
    files.put("model.txt", b"MODEL 1;")?;
    files.put("a.txt", b"old")?;
    files.put("a.txt", b"new")?;
    files.fail_at(3)?;
    for (name, extent, bytes, missed) in READS {
        let read = files.read(alloc, name, extent);
        let is_expected = match (&read, bytes) {
            (Ok(read), Some(bytes)) => read.as_slice() == bytes,
            (Err(FileFault::Failed), None) => true,
            _ => false,
        };
        if !is_expected || files.missed() != missed {
            return Ok(false);
        }
    }
    Ok(files.faults() == 2)
}

// Each piece, how its write ends, and how many have failed.
const WRITES: [(&[u8], Result<(), SinkFault>, u64); 5] = [
    (b"one ", Ok(()), 0),
    (b"twofold", Err(SinkFault::Failed), 1),
    (b" three", Ok(()), 1),
    (b" four", Err(SinkFault::Failed), 2),
    (b"", Ok(()), 2),
];

// A sink in memory keeps what was written, and the part of a failed piece.
fn memory_writes(alloc: Global) -> Result<bool, AllocError> {
    let mut sink = MemorySink::new(alloc);
    sink.fail_at(2, 3)?;
    sink.fail_at(4, 99)?;
    for (piece, outcome, faults) in WRITES {
        if sink.write(piece) != outcome || sink.faults() != faults {
            return Ok(false);
        }
    }
    Ok(sink.bytes() == b"one two three four".as_slice())
}

#[test]
fn files_and_sinks_in_memory_and_standard_output(rt: HostRuntime) -> Result<(), Fail> {
    let alloc = rt.alloc();
    assert!(rt; memory_reads(alloc)?);
    assert!(rt; memory_writes(alloc)?);
    let mut sink = HostSink::new(&rt);
    assert_eq!(rt; (sink.write(b"a piece\n"), sink.faults()), (Ok(()), 0));
    Ok(())
}
