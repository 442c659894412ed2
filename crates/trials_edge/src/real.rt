// The real files and the real output at work: long files and limits.
use io_edge::{Failed, HostStore, ReadRefusal, Sink, StdSink, Store};
use std::alloc::{AllocError, Global};
use std::rt::Files;
use std::test::Fail;

// So many bytes, of which no two pieces of a file are the same.
fn numbered(alloc: Global, count: usize) -> Result<Vec<u8>, AllocError> {
    let mut bytes = Vec::new(alloc);
    for i in 0..count {
        bytes.push((i % 251) as u8)?;
    }
    Ok(bytes)
}

// Writes so many bytes to a file, and says whether they are read back within the limit.
fn reads_back<R: Files>(
    rt: &R,
    alloc: Global,
    name: &str,
    count: usize,
    limit: usize,
) -> Result<bool, ReadRefusal> {
    let bytes = numbered(alloc, count)?;
    let mut store = HostStore::new(rt);
    if store.write_all(name, &bytes).is_err() {
        return Ok(false);
    }
    let read = store.read_all(alloc, name, limit)?;
    Ok(read.as_slice() == bytes.as_slice())
}

// Names, counts of bytes and limits.
static FILES: [(&str, usize, usize); 4] = [
    // a file of several pieces
    ("io_edge_real_long", 10000, 20000),
    // a file of exactly the limit
    ("io_edge_real_full", 10000, 10000),
    // a file of exactly one piece, and no more
    ("io_edge_real_piece", 4096, 4096),
    // an empty file
    ("io_edge_real_empty", 0, 0),
];

#[test]
fn files(rt: HostRuntime) -> Result<(), Fail> {
    for &(name, count, limit) in &FILES {
        assert!(rt; reads_back(&rt, rt.alloc(), name, count, limit)?);
    }
    Ok(())
}

// One byte more than the limit.
#[test]
fn longer_file(rt: HostRuntime) {
    let read = reads_back(&rt, rt.alloc(), "io_edge_real_longer", 10000, 9999);
    assert!(rt; read == Err(ReadRefusal::Long));
}

// What is written anew is all that the file holds.
#[test]
fn shorter_file(rt: HostRuntime) -> Result<(), Fail> {
    let long = reads_back(&rt, rt.alloc(), "io_edge_real_shorter", 10000, 10000)?;
    let short = reads_back(&rt, rt.alloc(), "io_edge_real_shorter", 5, 10000)?;
    assert!(rt; long && short);
    Ok(())
}

// A name that nothing holds.
#[test]
fn no_file(rt: HostRuntime) -> Result<(), Fail> {
    let mut store = HostStore::new(&rt);
    let read = store.read_all(rt.alloc(), "io_edge_no_such_file", 9).err();
    assert!(rt; read == Some(ReadRefusal::Failed));
    Ok(())
}

// A name under a folder that is none.
#[test]
fn no_folder(rt: HostRuntime) -> Result<(), Fail> {
    let written = HostStore::new(&rt).write_all("io_edge_no_such_folder/file", b"1");
    assert!(rt; written == Err(Failed));
    Ok(())
}

// A full device, which is opened, and whose first write fails; no byte is no write.
#[test]
fn full_device(rt: HostRuntime) -> Result<(), Fail> {
    let mut store = HostStore::new(&rt);
    let byte = store.write_all("/dev/full", b"1");
    let none = store.write_all("/dev/full", b"");
    assert!(rt; byte == Err(Failed) && none == Ok(()));
    Ok(())
}

#[test]
fn real_output(rt: HostRuntime) -> Result<(), Fail> {
    let put = StdSink::new(&rt).put(b"to the standard output\n");
    assert!(rt; put == Ok(()));
    Ok(())
}
