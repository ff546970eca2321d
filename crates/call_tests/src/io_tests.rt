//! Sources and sinks in memory and over the system's streams, and the calls over them.

ghost use Rattle.std.specs.Prelude.{◌≤◌};

use realm_io::{
    Failed, MemorySink, MemorySource, ReadEnd, Sink, StdSink, StdSource, SureSink, SureSource,
    WriteFault, put, put_number, read_all, read_by_start,
};
use std::alloc::Global;
use std::io;
use std::io::{ErrorKind, Read, Write, pipe};
use std::test::Fail;

const TEXT: &[u8] = b"realm-report 1\ndone\n";

fn source_of(alloc: Global, piece: usize, fails: &[u32]) -> Result<MemorySource, Fail>
    requires { 1 ≤ piece }
{
    let bytes = Vec::from_slice(alloc, TEXT)?;
    Ok(MemorySource::new(bytes, piece, Vec::from_slice(alloc, fails)?))
}

fn sink_of(alloc: Global, room: usize, piece: usize, fails: &[u32]) -> Result<MemorySink, Fail>
    requires { 1 ≤ piece }
{
    let room = vec![in alloc; 0u8; room]?;
    Ok(MemorySink::new(room, piece, Vec::from_slice(alloc, fails)?))
}

#[test]
fn reads_all_or_says_why(rt: HostRuntime) -> Result<(), Fail> {
    // bytes a read, the read that fails, the limit, what is answered
    let table = [
        (4, 99, 100, None),
        (4, 5, 100, Some(ReadEnd::ReadFault)),
        (4, 1, 100, Some(ReadEnd::ReadFault)),
        (1, 20, 20, Some(ReadEnd::ReadFault)),
        (1, 21, 20, None),
        (9000, 99, 20, None),
        (4, 99, 19, Some(ReadEnd::TooLong)),
        (1, 20, 19, Some(ReadEnd::TooLong)),
        (1, 99, 0, Some(ReadEnd::TooLong)),
    ];
    for (piece, fail, limit, end) in table {
        let mut source = source_of(rt.alloc(), piece.max(1), &[fail])?;
        let answer = read_all(rt.alloc(), &mut source, limit);
        assert_eq!(rt;
            answer.as_ref().err().copied(),
            end,
            "{piece} {fail} {limit}"
        );
        if let Ok(all) = answer {
            assert_eq!(rt; all.as_slice(), TEXT);
        }
    }
    Ok(())
}

/// So many bytes that begin so.
fn begun_by(alloc: Global, start: &[u8], length: usize) -> Result<Vec<u8>, Fail> {
    let mut bytes = Vec::from_slice(alloc, start)?;
    bytes.resize(length, b'x')?;
    Ok(bytes)
}

#[test]
fn a_text_may_be_longer_by_how_it_begins(rt: HostRuntime) -> Result<(), Fail> {
    // how the text begins and how long it is, bytes a read, what is answered where those that begin with `long` may have 5,000
    // bytes and others 4,101, and how many bytes are left then
    let table: [(&[u8], usize, usize, Option<ReadEnd>, usize); 7] = [
        (b"long\n", 5000, 9000, None, 0),
        (b"long\n", 5000, 1, None, 0),
        (b"long\n", 6000, 9000, Some(ReadEnd::TooLong), 999),
        (b"long\n", 6000, 7, Some(ReadEnd::TooLong), 999),
        (b"longer\n", 4101, 9000, None, 0),
        (b"longer\n", 6000, 9000, Some(ReadEnd::TooLong), 1898),
        (b"long", 6000, 2, Some(ReadEnd::TooLong), 1898),
    ];
    for (start, length, piece, end, left) in table {
        let bytes = begun_by(rt.alloc(), start, length)?;
        let mut source = MemorySource::new(bytes, piece.max(1), Vec::new(rt.alloc()));
        let answer = read_by_start(rt.alloc(), &mut source, b"long\n", 5000, 4101);
        assert_eq!(rt; answer.as_ref().err().copied(), end, "{length} {piece}");
        let rest = read_all(rt.alloc(), &mut source, 9000)?;
        assert_eq!(rt; rest.len(), left, "{length} {piece}");
    }
    Ok(())
}

#[test]
fn a_sink_keeps_what_it_took_before_it_fails(rt: HostRuntime) -> Result<(), Fail> {
    // the room, bytes a write, the call that fails, how many bytes are taken, and whether all went well
    let table = [
        (20, 1, 2, 2, false),
        (20, 1, 0, 0, false),
        (20, 1, 19, 19, false),
        (20, 1, 20, 20, false),
        (20, 1, 21, 20, true),
        (20, 7, 2, 14, false),
        (20, 7, 4, 20, true),
        (30, 99, 1, 20, false),
        (13, 4, 99, 13, false),
        (0, 4, 99, 0, false),
    ];
    for (room, piece, fail, taken, is_ok) in table {
        let mut sink = sink_of(rt.alloc(), room, piece.max(1), &[fail])?;
        let is_put = put(&mut sink, TEXT).is_ok();
        let is_flushed = is_put && sink.flush().is_ok();
        assert_eq!(rt; is_flushed, is_ok, "{room} {piece} {fail}");
        assert_eq!(rt; sink.flushed(), if is_ok { 20 } else { 0 });
        assert_eq!(rt; sink.taken().len(), taken, "{room} {piece} {fail}");
        assert!(rt; TEXT.starts_with(sink.taken()));
    }
    Ok(())
}

#[test]
fn numbers_are_written_in_decimal(rt: HostRuntime) -> Result<(), Fail> {
    let mut sink = sink_of(rt.alloc(), 40, 3, &[])?;
    for n in [0, 7, 1048576, u64::MAX] {
        put_number(&mut sink, n)?;
        put(&mut sink, b" ")?;
    }
    assert_eq!(rt;
        sink.taken(),
        b"0 7 1048576 18446744073709551615 ".as_slice()
    );
    Ok(())
}

#[test]
fn the_sure_ones_never_fail(rt: HostRuntime) -> Result<(), Fail> {
    let mut source = SureSource::new(Vec::from_slice(rt.alloc(), TEXT)?);
    assert_eq!(rt; read_all(rt.alloc(), &mut source, 20)?.as_slice(), TEXT);
    let mut sink = SureSink::new(vec![in rt.alloc(); 0u8; 5]?);
    put(&mut sink, b"rea")?;
    put(&mut sink, TEXT)?;
    sink.flush()?;
    assert_eq!(rt; sink.taken(), 23);
    assert_eq!(rt; sink.kept(), b"reare".as_slice());
    Ok(())
}

#[test]
fn a_std_reader_is_a_source(rt: HostRuntime) -> Result<(), Fail> {
    let (reader, writer) = pipe(&rt)?;
    let mut sink = StdSink::new(writer);
    put(&mut sink, TEXT)?;
    drop(sink);
    let all = read_all(rt.alloc(), &mut StdSource::new(reader), 100)?;
    assert_eq!(rt; all.as_slice(), TEXT);
    Ok(())
}

#[test]
fn a_std_writer_is_a_sink(rt: HostRuntime) -> Result<(), Fail> {
    let mut written = Vec::new(rt.alloc());
    let mut sink = StdSink::new(&mut written);
    put(&mut sink, TEXT)?;
    sink.flush()?;
    assert_eq!(rt; written.as_slice(), TEXT);

    // A device that takes nothing is a fault.
    let mut full = [0u8; 3];
    let mut sink = StdSink::new(full.as_mut_slice());
    assert_eq!(rt; put(&mut sink, TEXT), Err(WriteFault));
    assert_eq!(rt; full, *b"rea");
    Ok(())
}

#[derive(Drop)]
struct Broken;

impl Read for Broken {
    fn read(&mut self, _buf: &mut [u8]) -> io::Result<usize> {
        Err(io::Error::from(ErrorKind::Interrupted))
    }
}

impl Write for Broken {
    fn write(&mut self, _buf: &[u8]) -> io::Result<usize> {
        Err(io::Error::from(ErrorKind::Interrupted))
    }

    fn flush(&mut self) -> io::Result<()> {
        Err(io::Error::from(ErrorKind::Interrupted))
    }
}

#[test]
fn an_error_of_the_system_is_a_fault(rt: HostRuntime) {
    let answer = read_all(rt.alloc(), &mut StdSource::new(Broken), 100);
    assert_eq!(rt; answer.err(), Some(ReadEnd::ReadFault));
    let mut sink = StdSink::new(Broken);
    assert_eq!(rt; put(&mut sink, TEXT), Err(WriteFault));
    assert_eq!(rt; sink.flush(), Err(Failed));
}
