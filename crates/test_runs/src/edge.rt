//! Real files and output, and a status that no case can bring about.

use asl_term::copying::text_of;
use asl_term::sequence::Starved;
use mas_io::real::{FileShelf, OutSink};
use mas_io::shelf::{Fetched, Shelf};
use mas_io::sink::{Put, Sink};
use mas_io::writing::write_all;
use mas_top_status::status::{Status, code, fault_line};
use std::alloc::Global;
use std::fs;
use std::test::Fail;

/// The bytes, or what came in their place.
fn shown(fetched: &Fetched) -> &[u8] {
    match fetched {
        Fetched::Bytes(bytes) => bytes.as_slice(),
        Fetched::Missing => b"<missing>",
        Fetched::TooLong => b"<too long>",
        Fetched::Failed => b"<failed>",
    }
}

fn gives<S: Shelf>(
    alloc: Global,
    shelf: &mut S,
    name: &[u8],
    most: u64,
    want: &[u8],
) -> Result<bool, Starved> {
    let name = text_of(alloc, name)?;
    let fetched = shelf.fetch(alloc, &name, most)?;
    Ok(shown(&fetched) == want)
}

#[test]
fn want_of_memory_is_told(rt: HostRuntime) -> Result<(), Starved> {
    let line = fault_line(rt.alloc(), &Status::Memory)?;
    assert!(rt; code(&Status::Memory) == 9);
    assert!(rt; line.as_slice() == b"memory\n".as_slice());
    Ok(())
}

#[test]
fn file_shelf_answers(rt: HostRuntime) -> Result<(), Fail> {
    let alloc = rt.alloc();
    let path = "file_shelf_answers.tmp";
    fs::write(&rt, path, "123")?;
    let mut shelf = FileShelf::new(&rt);
    let rows: [(&[u8], u64, &str); 5] = [
        (path.as_bytes(), 3, "123"),
        (path.as_bytes(), 2, "<too long>"),
        (b"file_shelf_answers.none", 3, "<missing>"),
        (b".", 3, "<failed>"),
        (b"\xff", 3, "<failed>"),
    ];
    for (name, most, want) in rows {
        let held = gives(alloc, &mut shelf, name, most, want.as_bytes())?;
        assert!(rt; held, "{want} within {most}");
    }
    fs::remove_file(&rt, path)?;
    Ok(())
}

#[test]
fn out_sink_takes(rt: HostRuntime) {
    let mut sink = OutSink::new(&rt);
    assert!(rt; sink.put(b"out\n") != Put::Failed);
    assert!(rt; write_all(&mut sink, b"and more\n").is_ok());
}
