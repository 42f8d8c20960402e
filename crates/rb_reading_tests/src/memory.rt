//! Inputs and sinks in memory, and the lines of a text.
use rb_io::{
    Bytes, Failed, FileFault, Inputs, MemInputs, MemSink, NoFaultsInputs, NoFaultsSink, Sink,
    next_line, put_all, read_all,
};
use std::alloc::{AllocError, Global};

// Whether a name was read, and held these bytes.
pub(crate) fn is_read(read: Result<Bytes, FileFault>, bytes: &[u8]) -> bool {
    matches!(read, Ok(found) if found.as_slice() == bytes)
}

pub(crate) fn is_refused(read: Result<Bytes, FileFault>, fault: FileFault) -> bool {
    matches!(read, Err(found) if found == fault)
}

// Whether a read answers so, and gives these bytes at the front.
pub(crate) fn gives<I: Inputs>(
    inputs: &mut I,
    answer: Result<usize, Failed>,
    bytes: &[u8],
) -> bool {
    let mut buf = [0u8; 8];
    inputs.read(&mut buf) == answer && buf.as_slice().starts_with(bytes)
}

fn some_inputs(alloc: Global) -> Result<MemInputs, AllocError> {
    let mut inputs = MemInputs::new(alloc, 2, &[4])?;
    inputs.add("robot", b"abc")?;
    Ok(inputs)
}

// Whether the second read from the name fails.
fn gives_robot<I: Inputs>(inputs: &mut I) -> bool {
    inputs.open("robot") == Ok(())
        && gives(inputs, Ok(2), b"ab")
        && gives(inputs, Err(Failed), b"")
        && gives(inputs, Ok(1), b"c")
        && gives(inputs, Ok(0), b"")
}

fn gives_nothing_else<I: Inputs>(inputs: &mut I) -> bool {
    inputs.open("other") == Ok(()) && gives(inputs, Ok(0), b"")
}

#[test]
fn inputs_in_memory_fail_where_told(rt: HostRuntime) {
    let Ok(mut inputs) = some_inputs(rt.alloc()) else {
        assert!(rt; false, "no memory");
        return;
    };
    let starts_closed = gives(&mut inputs, Ok(0), b"");
    assert!(rt; starts_closed && gives_robot(&mut inputs) && gives_nothing_else(&mut inputs));
}

fn two_names(alloc: Global) -> Result<NoFaultsInputs, AllocError> {
    let mut inputs = NoFaultsInputs::new(alloc, 2)?;
    inputs.add("robot", b"abcde")?;
    inputs.add("-", b"")?;
    Ok(inputs)
}

fn is_limited<I: Inputs>(alloc: Global, inputs: &mut I) -> bool {
    is_read(read_all(alloc, inputs, "robot", 5), b"abcde")
        && is_refused(read_all(alloc, inputs, "robot", 4), FileFault::TooLong)
        && is_read(read_all(alloc, inputs, "-", 0), b"")
}

#[test]
fn a_name_is_read_up_to_its_limit(rt: HostRuntime) {
    let Ok(mut inputs) = two_names(rt.alloc()) else {
        assert!(rt; false, "no memory");
        return;
    };
    assert!(rt; is_limited(rt.alloc(), &mut inputs));
}

// Whether a sink with room for four bytes takes pieces of three, and its second call fails.
fn takes_pieces<O: Sink>(sink: &mut O) -> bool {
    sink.write(b"abcd") == Ok(3)
        && sink.write(b"de") == Err(Failed)
        && put_all(sink, b"de") == Err(Failed)
        && sink.write(b"") == Ok(0)
}

#[test]
fn sinks_in_memory_fail_where_told_and_where_full(rt: HostRuntime) {
    let Ok(mut sink) = MemSink::new(rt.alloc(), 4, 3, &[2]) else {
        assert!(rt; false, "no memory");
        return;
    };
    assert!(rt; takes_pieces(&mut sink) && sink.bytes() == b"abcd".as_slice());
}

// Whether all is put, though there may be less room.
fn takes_all<O: Sink>(sink: &mut O) -> bool {
    put_all(sink, b"abcd") == Ok(()) && put_all(sink, b"ef") == Ok(())
}

#[test]
fn a_full_sink_without_faults_keeps_nothing_more(rt: HostRuntime) {
    let Ok(mut sink) = NoFaultsSink::new(rt.alloc(), 4, 3) else {
        assert!(rt; false, "no memory");
        return;
    };
    assert!(rt; takes_all(&mut sink) && sink.bytes() == b"abcd".as_slice());
}

#[test]
fn cuts_lines(rt: HostRuntime) {
    let lines = [
        (b"a".as_slice(), 2),
        (b"b\r".as_slice(), 3),
        (b"c,d".as_slice(), 3),
        (b"\r".as_slice(), 1),
    ];
    let mut rest = b"a\r\n\n\r\nb\r\r\nc,d\n\n\r".as_slice();
    for (content, size) in lines {
        let Some(cut) = next_line(rest) else {
            assert!(rt; false, "no line");
            return;
        };
        assert!(rt; cut.content == content && cut.size == size);
        rest = cut.rest;
    }
    assert!(rt; next_line(rest).is_none());
}
