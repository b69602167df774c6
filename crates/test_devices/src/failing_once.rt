//! Readers and writers of which one call fails and later ones wouldn't, below what reads and writes
//! through them.

use cli_devices::{Buffered, Inputs, Part};
use input_source::{BlockRead, ByteSource, ReadSource, StdRead, Taken};
use page_bytes::{ByteSink, StdWrite, WriteSink};
use std::alloc::{AllocError, Global};
use std::cell::Cell;
use std::io::ErrorKind;
use std::test::Fail;
use test_machine::{Given, Paper};

/// An error of each kind is one, that of an interrupted call too.
static ERRORS: [ErrorKind; 3] = [
    ErrorKind::Interrupted,
    ErrorKind::StorageFull,
    ErrorKind::Unsupported,
];

/// A reader that gives these bytes, an error, and then others.
fn reader<'a>(before: &'a [u8], error: ErrorKind, behind: &'a [u8]) -> StdRead<Given<'a>> {
    StdRead {
        reader: Given::failing_once(before, error, behind),
    }
}

/// Whether a source gives these bytes next.
fn gives<S: ByteSource>(source: &mut S, bytes: &[u8]) -> bool {
    for byte in bytes {
        if !matches!(source.next_byte(), Taken::Byte(given) if given == *byte) {
            return false;
        }
    }
    true
}

/// Whether nothing stands ready in a source, which fails.
fn fails<S: ByteSource>(source: &mut S) -> bool {
    source.ready_byte().is_none()
        && source.buffered().is_empty()
        && matches!(source.next_byte(), Taken::Fault)
}

/// What a source gives is what was read in front of the error; then a fault, for good.
#[test]
fn source(rt: HostRuntime) -> Result<(), Fail> {
    for error in &ERRORS {
        let mut source = ReadSource::new(rt.alloc(), reader(b"abc", *error, b"def"))?;
        assert!(rt; gives(&mut source, b"abc"));
        for _ in 0..3 {
            assert!(rt; fails(&mut source));
        }
    }
    Ok(())
}

/// Behind its end, and behind an error, a reader isn't read any more.
#[test]
fn source_at_its_end(rt: HostRuntime) -> Result<(), Fail> {
    for fails in [false, true] {
        let reads = Cell::new(0);
        let reader = Given {
            reads: Some(&reads),
            fails,
            ..Given::new(b"a")
        };
        let mut source = ReadSource::new(rt.alloc(), StdRead { reader })?;
        for _ in 0..4 {
            let _ = source.next_byte();
        }
        assert_eq!(rt; reads.get(), 2);
    }
    Ok(())
}

/// The parts of an input are read in order, and an error of one is passed on in its place.
#[test]
fn inputs(rt: HostRuntime) -> Result<(), Fail> {
    for error in &ERRORS {
        let mut parts = Vec::new(rt.alloc());
        parts.push(Part::File(reader(b"ab", *error, b"cd")))?;
        parts.push(Part::Standard(reader(b"ef", *error, b"gh")))?;
        let mut source = ReadSource::new(rt.alloc(), Inputs::new(parts))?;
        assert!(rt; gives(&mut source, b"ab"));
        assert!(rt; matches!(source.next_byte(), Taken::Fault));
    }
    Ok(())
}

/// Files of these bytes.
fn files<'a>(
    alloc: Global,
    texts: &[&'a [u8]],
) -> Result<Inputs<StdRead<Given<'a>>, StdRead<Given<'a>>>, AllocError> {
    let mut parts = Vec::new(alloc);
    for bytes in texts {
        let reader = Given::new(bytes);
        parts.push(Part::File(StdRead { reader }))?;
    }
    Ok(Inputs::new(parts))
}

/// Whether one read gives these bytes, and no more.
fn reads<R: BlockRead>(reader: &mut R, bytes: &[u8]) -> bool {
    let mut block = [0; 8];
    match reader.read_block(&mut block) {
        input_source::Given::Bytes(count) => count == bytes.len() && block.starts_with(bytes),
        _ => false,
    }
}

/// One read is one read of one part: that of the first which isn't at its end.
#[test]
fn input_behind_parts_that_ended(rt: HostRuntime) -> Result<(), Fail> {
    let mut inputs = files(rt.alloc(), &[b"", b"", b"ab", b"", b"cd"])?;
    assert!(rt; reads(&mut inputs, b"ab"));
    assert!(rt; reads(&mut inputs, b"cd"));
    assert!(rt; matches!(inputs.read_block(&mut [0; 8]), input_source::Given::Nothing));
    Ok(())
}

/// A writer of which one write fails, behind three bytes.
fn failing_writer(alloc: Global, error: ErrorKind) -> StdWrite<Paper> {
    StdWrite::new(Paper {
        fails_once_at: Some(3),
        error,
        ..Paper::new(alloc)
    })
}

/// A beginning of the piece is written, and the rest of it isn't tried again.
#[test]
fn sink(rt: HostRuntime) {
    for error in &ERRORS {
        let mut sink = WriteSink::new(failing_writer(rt.alloc(), *error));
        assert!(rt; sink.put(b"abcdef").is_err());
        assert!(rt; sink.put(b"gh").is_ok());
        assert_eq!(rt;
            sink.into_inner().into_inner().kept.as_slice(),
            b"abcgh".as_slice()
        );
    }
}

/// Whether a buffer that is finished fails, and wrote `abc` before.
fn fails_behind_abc(buffered: Buffered<StdWrite<Paper>>) -> bool {
    let (writer, flushed) = buffered.finish();
    flushed.is_err() && writer.into_inner().kept.as_slice() == b"abc".as_slice()
}

/// What a buffer holds is written out at its end, up to the write that fails.
#[test]
fn buffer(rt: HostRuntime) {
    for error in &ERRORS {
        let Ok(buffered) = Buffered::new(rt.alloc(), failing_writer(rt.alloc(), *error)) else {
            assert!(rt; false, "no memory");
            return;
        };
        let mut sink = WriteSink::new(buffered);
        assert!(rt; sink.put(b"abcdef").is_ok());
        assert!(rt; fails_behind_abc(sink.into_inner()));
    }
}
