// What only tests say of sources, sinks and files: that calls succeed where memory is ample, readers and writers of std
// that move a part, fail or are full, and the real disk.
ghost use Rattle.std.specs.Prelude.{IsErrOf};
ghost use Rattle.sm_io.specs.Causes.{Quiet};

use sm_io::{
    CalmFiles, CalmSink, CalmSource, DiskFiles, Failed, FileRefusal, Files, MemFiles, MemSink,
    MemSource, PutRefusal, ReadRefusal, Sink, Source, StdSink, StdSource, read_all,
};
use std::alloc::{AllocError, Global};
use std::io::{Read, Write};
use std::test::Fail;
use std::{fs, io};

const BYTES: [u8; 8] = [10, 20, 30, 40, 50, 60, 70, 80];

// A caller that knows its files by the trait alone: a copy through which both counts stayed quiet had no fault.
fn copy_file<F: Files>(files: &mut F, from: &str, to: &str) -> Result<(), FileRefusal>
    requires read { F.lets_read files.old from.now }
    requires write { F.lets_write files.old to.now }
    ensures quiet { Quiet (F.read_faults files.old) (F.read_faults files.new)
        → Quiet (F.write_faults files.old) (F.write_faults files.new)
        → IsErrOf result FileRefusal.Failed → ⊥ }
{
    match files.read(from, 100) {
        Ok(bytes) => files.write(to, &bytes),
        Err(refusal) => Err(refusal),
    }
}

// A caller that knows its source by the trait alone: the counts of its takes up to the end, and 99 for each fault.
fn counts<S: Source>(alloc: Global, source: &mut S) -> Result<Vec<usize>, AllocError> {
    let mut counts = Vec::new(alloc);
    let mut buffer = [0; 4];
    for _ in 0..20 {
        match source.take(&mut buffer) {
            Ok(0) => break,
            Ok(count) => counts.push(count)?,
            Err(Failed) => counts.push(99)?,
        }
    }
    Ok(counts)
}

// A caller that knows its sink by the trait alone.
fn put_twice<K: Sink>(sink: &mut K, first: &[u8], second: &[u8]) -> Result<(), PutRefusal> {
    sink.put(first)?;
    sink.put(second)
}

#[test]
fn ample_memory_suffices(rt: HostRuntime) -> Result<(), Fail> {
    let alloc = rt.alloc();
    // More than one buffer.
    let mut bytes = Vec::new(alloc);
    for index in 0..50_000u32 {
        bytes.push((index % 251) as u8)?;
    }
    let mut source = CalmSource::new(bytes.to_vec(alloc)?, vec![in alloc; 1u64, 20_000]?);
    assert_eq!(rt;
        read_all(alloc, &mut source, 50_000)?.as_slice(),
        bytes.as_slice()
    );

    assert_eq!(rt; put_twice(&mut CalmSink::new(alloc), b"ab", b"cd"), Ok(()));
    assert_eq!(rt;
        put_twice(&mut MemSink::new(alloc, Vec::new(alloc)), b"ab", b"cd"),
        Ok(())
    );
    Ok(())
}

#[test]
fn a_failed_take_is_not_tried_again(rt: HostRuntime) -> Result<(), Fail> {
    let alloc = rt.alloc();
    let cuts = vec![in alloc; 3u64, 3]?;
    let mut source = MemSource::new(BYTES.to_vec(alloc)?, cuts, vec![in alloc; 2u64]?);
    assert_eq!(rt;
        read_all(alloc, &mut source, 8).err(),
        Some(ReadRefusal::Failed)
    );
    assert_eq!(rt;
        read_all(alloc, &mut source, 8)?.as_slice(),
        [40, 50, 60, 70, 80].as_slice()
    );
    Ok(())
}

#[test]
fn ample_memory_suffices_for_files(rt: HostRuntime) -> Result<(), Fail> {
    let alloc = rt.alloc();
    let mut files = MemFiles::new(alloc, Vec::new(alloc), Vec::new(alloc));
    assert_eq!(rt; files.write("a", b"four"), Ok(()));
    assert_eq!(rt; copy_file(&mut files, "a", "b"), Ok(()));
    assert_eq!(rt; files.write("a", b"other"), Ok(()));
    assert_eq!(rt; files.file("a"), Some(b"other".as_slice()));
    assert_eq!(rt; files.file("b"), Some(b"four".as_slice()));

    let mut calm = CalmFiles::new(alloc, Vec::new(alloc));
    assert_eq!(rt; calm.write("a", b"four"), Ok(()));
    assert_eq!(rt; copy_file(&mut calm, "a", "b"), Ok(()));
    assert_eq!(rt; calm.write("c", b""), Ok(()));
    assert_eq!(rt; calm.file("c"), Some(b"".as_slice()));
    assert_eq!(rt; calm.read("d", 0)?.len(), 0);
    assert_eq!(rt; calm.file("d"), None);
    Ok(())
}

// A reader and writer that moves two bytes at most, and fails in one of its calls.
#[derive(Drop)]
struct Narrow {
    bytes: Vec<u8>,
    at: usize,
    calls: usize,
    failing: usize,
}

impl Narrow {
    fn new(bytes: Vec<u8>, failing: usize) -> Self {
        Narrow {
            bytes,
            at: 0,
            calls: 0,
            failing,
        }
    }

    fn call(&mut self) -> io::Result<()> {
        self.calls = self.calls.saturating_add(1);
        if self.calls == self.failing {
            return Err(io::Error::from(io::ErrorKind::Other));
        }
        Ok(())
    }
}

impl Read for Narrow {
    fn read(&mut self, buf: &mut [u8]) -> io::Result<usize> {
        self.call()?;
        let left = self.bytes.get(self.at..).unwrap_or(&[]);
        let count = left.len().min(buf.len()).min(2);
        buf[..count].copy_from_slice(&left[..count]);
        self.at = self.at.saturating_add(count);
        Ok(count)
    }
}

impl Write for Narrow {
    fn write(&mut self, buf: &[u8]) -> io::Result<usize> {
        self.call()?;
        let count = buf.len().min(2);
        self.bytes.extend_from_slice(&buf[..count])?;
        Ok(count)
    }

    fn flush(&mut self) -> io::Result<()> {
        self.call()
    }
}

// A writer without room.
#[derive(Clone, Copy)]
struct Full;

impl Write for Full {
    fn write(&mut self, _buf: &[u8]) -> io::Result<usize> {
        Ok(0)
    }

    fn flush(&mut self) -> io::Result<()> {
        Ok(())
    }
}

#[test]
fn a_reader_of_std_is_a_source(rt: HostRuntime) -> Result<(), Fail> {
    let alloc = rt.alloc();
    let mut source = StdSource::new(Narrow::new(BYTES.to_vec(alloc)?, 0));
    assert_eq!(rt;
        read_all(alloc, &mut source, 8)?.as_slice(),
        BYTES.as_slice()
    );
    // The call behind the one that failed gives what comes next.
    let mut failing = StdSource::new(Narrow::new(BYTES.to_vec(alloc)?, 3));
    assert_eq!(rt;
        counts(alloc, &mut failing)?.as_slice(),
        [2, 2, 99, 2, 2].as_slice()
    );
    Ok(())
}

// Puts two pieces to a writer that fails in one of its calls, and gives the answer and what was written.
fn put_to_narrow(
    alloc: Global,
    failing: usize,
) -> Result<(Result<(), PutRefusal>, Vec<u8>), AllocError> {
    let mut writer = Narrow::new(Vec::new(alloc), failing);
    let result = put_twice(&mut StdSink::new(&mut writer), b"abc", b"de");
    Ok((result, writer.bytes))
}

// Each piece is flushed in its own call, so that a fault of the flush (here the third call) isn't answered later.
#[test]
fn a_writer_of_std_is_a_sink(rt: HostRuntime) -> Result<(), Fail> {
    for (failing, answer, bytes) in [
        (0, Ok(()), b"abcde".as_slice()),
        (2, Err(PutRefusal::Failed), b"ab"),
        (3, Err(PutRefusal::Failed), b"abc"),
    ] {
        let (result, written) = put_to_narrow(rt.alloc(), failing)?;
        assert_eq!(rt; result, answer, "at {failing}");
        assert_eq!(rt; written.as_slice(), bytes, "at {failing}");
    }
    Ok(())
}

// A writer with no room left takes nothing, and that is a fault too.
#[test]
fn a_full_writer_is_a_fault(rt: HostRuntime) {
    let result = put_twice(&mut StdSink::new(Full), b"", b"d");
    assert_eq!(rt; result, Err(PutRefusal::Failed));
}

#[test]
fn files_on_disk_are_read_and_written(rt: HostRuntime) -> Result<(), Fail> {
    let alloc = rt.alloc();
    let mut files = DiskFiles::new(alloc, rt);
    assert_eq!(rt; files.write("sm_io_disk_test", b"longer"), Ok(()));
    assert_eq!(rt; files.write("sm_io_disk_test", b"four"), Ok(()));
    assert_eq!(rt;
        files.read("sm_io_disk_test", 4)?.as_slice(),
        b"four".as_slice()
    );
    assert_eq!(rt;
        files.read("sm_io_disk_test", 3).err(),
        Some(FileRefusal::TooLong)
    );
    assert_eq!(rt;
        files.read("sm_io_no_such_file", 4).err(),
        Some(FileRefusal::Failed)
    );
    assert_eq!(rt;
        files.write("no_such_folder/file", b"x"),
        Err(FileRefusal::Failed)
    );
    assert_eq!(rt;
        copy_file(&mut files, "sm_io_disk_test", "sm_io_disk_copy"),
        Ok(())
    );
    assert_eq!(rt;
        files.read("sm_io_disk_copy", 4)?.as_slice(),
        b"four".as_slice()
    );
    fs::remove_file(&rt, "sm_io_disk_test")?;
    fs::remove_file(&rt, "sm_io_disk_copy")?;
    Ok(())
}
