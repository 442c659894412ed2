// Files and outputs that give or take a few bytes at a time.
use io_edge::{Failed, HostStore, ReadRefusal, Sink, StdSink, Store};
use std::alloc::{Allocator, Global};
use std::cell::Cell;
use std::fs::{Metadata, OpenFile, OpenOptions};
use std::io;
use std::io::{Read, Seek, SeekFrom, Write};
use std::rt::Files;
use std::test::Fail;

// A file that gives three bytes at a time of those that are left, and takes three at a time of just those.
#[derive(Drop)]
struct SlowFile<'a> {
    left: &'a Cell<&'static [u8]>,
}

impl Read for SlowFile<'_> {
    fn read(&mut self, buf: &mut [u8]) -> io::Result<usize> {
        let left = self.left.get();
        let count = buf.len().min(left.len()).min(3);
        buf[..count].copy_from_slice(&left[..count]);
        self.left.set(&left[count..]);
        Ok(count)
    }
}

impl Write for SlowFile<'_> {
    fn write(&mut self, buf: &[u8]) -> io::Result<usize> {
        let left = self.left.get();
        let count = buf.len().min(3);
        if left.len() < count || left[..count] != buf[..count] {
            return Err(io::Error::from(io::ErrorKind::InvalidData));
        }
        self.left.set(&left[count..]);
        Ok(count)
    }

    fn flush(&mut self) -> io::Result<()> {
        Ok(())
    }
}

// What neither store asks of a file.
fn not_asked<T>() -> io::Result<T> {
    Err(io::Error::from(io::ErrorKind::Unsupported))
}

impl Seek for SlowFile<'_> {
    fn seek(&mut self, _to: SeekFrom) -> io::Result<u64> {
        not_asked()
    }
}

impl OpenFile for SlowFile<'_> {
    fn metadata(&self) -> io::Result<Metadata> {
        not_asked()
    }

    fn set_len(&self, _size: u64) -> io::Result<()> {
        not_asked()
    }

    fn sync_all(&self) -> io::Result<()> {
        not_asked()
    }

    fn sync_data(&self) -> io::Result<()> {
        not_asked()
    }
}

// A system with one such file, under each name.
#[derive(Drop)]
struct SlowFiles<'a> {
    left: &'a Cell<&'static [u8]>,
}

impl<'a> Files for SlowFiles<'a> {
    type File = SlowFile<'a>;

    type Dir = SlowFile<'a>;

    fn open_file(&self, _how: &OpenOptions, _path: &str) -> io::Result<SlowFile<'a>> {
        Ok(SlowFile { left: self.left })
    }

    fn open_dir(&self, _path: &str) -> io::Result<SlowFile<'a>> {
        not_asked()
    }

    fn metadata(&self, _path: &str) -> io::Result<Metadata> {
        not_asked()
    }

    fn symlink_metadata(&self, _path: &str) -> io::Result<Metadata> {
        not_asked()
    }

    fn copy(&self, _from: &str, _to: &str) -> io::Result<u64> {
        not_asked()
    }

    fn rename(&self, _from: &str, _to: &str) -> io::Result<()> {
        not_asked()
    }

    fn remove_file(&self, _path: &str) -> io::Result<()> {
        not_asked()
    }

    fn create_dir(&self, _path: &str) -> io::Result<()> {
        not_asked()
    }

    fn remove_dir(&self, _path: &str) -> io::Result<()> {
        not_asked()
    }

    fn remove_dir_all<B: Allocator>(&self, _alloc: B, _path: &str) -> io::Result<()> {
        not_asked()
    }
}

// Ten bytes.
static TEN: &[u8] = b"0123456789";

// What a store reads of a file that gives these bytes.
fn read_slowly(
    alloc: Global,
    left: &Cell<&'static [u8]>,
    limit: usize,
) -> Result<Vec<u8>, ReadRefusal> {
    HostStore::new(&SlowFiles { left }).read_all(alloc, "file", limit)
}

#[test]
fn slow_reader(rt: HostRuntime) -> Result<(), Fail> {
    let left = Cell::new(TEN);
    let read = read_slowly(rt.alloc(), &left, 10)?;
    assert!(rt; read.as_slice() == TEN);
    Ok(())
}

// No more than one byte beyond the limit is taken.
#[test]
fn slow_reader_at_limit(rt: HostRuntime) -> Result<(), Fail> {
    let left = Cell::new(TEN);
    let read = read_slowly(rt.alloc(), &left, 4).err();
    assert!(rt; read == Some(ReadRefusal::Long) && left.get() == b"56789".as_slice());
    Ok(())
}

// Whether a store writes ten bytes to a file that takes just these.
fn writes_slowly(left: &Cell<&'static [u8]>) -> bool {
    HostStore::new(&SlowFiles { left }).write_all("file", TEN) == Ok(())
}

#[test]
fn slow_writer(rt: HostRuntime) {
    let left = Cell::new(TEN);
    assert!(rt; writes_slowly(&left) && left.get().is_empty());
}

// An output that takes three bytes at a time, up to so many in all, and then none.
#[derive(Drop)]
struct SlowOutput {
    free: Cell<usize>,
}

impl Print for SlowOutput {
    fn print<D: std::fmt::Display + Drop>(&self, _value: D) -> io::Result<()> {
        Ok(())
    }

    fn println<D: std::fmt::Display + Drop>(&self, _value: D) -> io::Result<()> {
        Ok(())
    }

    fn write_all(&self, _bytes: &[u8]) -> io::Result<()> {
        Ok(())
    }

    fn write_some(&self, bytes: &[u8]) -> io::Result<usize> {
        let count = bytes.len().min(self.free.get()).min(3);
        self.free.set(self.free.get().saturating_sub(count));
        Ok(count)
    }
}

#[test]
fn slow_output(rt: HostRuntime) -> Result<(), Fail> {
    let output = SlowOutput {
        free: Cell::new(12),
    };
    let put = StdSink::new(&output).put(b"0123456789");
    assert!(rt; put == Ok(()) && output.free.get() == 2);
    Ok(())
}

#[test]
fn full_output(rt: HostRuntime) -> Result<(), Fail> {
    let output = SlowOutput { free: Cell::new(8) };
    let put = StdSink::new(&output).put(b"0123456789");
    assert!(rt; put == Err(Failed) && output.free.get() == 0);
    Ok(())
}
