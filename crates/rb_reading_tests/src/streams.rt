//! Files and streams of the machine, and streams that give or take a few bytes at a time and fail once.
ghost use Rattle.std.specs.Prelude.{Some};

use crate::memory::{gives, is_read, is_refused};
use rb_io::{Failed, FileFault, FileInputs, Inputs, Sink, StdSink, put_all, read_all};
use std::alloc::Global;
use std::io::{ErrorKind, Read, Write};
use std::{fs, io};

// Gives at most two bytes a call, and fails once, where so many bytes are left.
#[derive(Drop)]
struct SlowReader {
    bytes: &'static [u8],
    fails_at: Option<usize>,
}

impl Read for SlowReader {
    ghost remaining = { λ s. Some s.bytes.now };

    fn read(&mut self, buf: &mut [u8]) -> io::Result<usize> {
        if self.fails_at == Some(self.bytes.len()) {
            self.fails_at = None;
            return Err(io::Error::from(ErrorKind::Other));
        }
        let count = self.bytes.len().min(buf.len()).min(2);
        buf[..count].copy_from_slice(&self.bytes[..count]);
        self.bytes = &self.bytes[count..];
        Ok(count)
    }
}

// Takes at most three bytes a call, and fails once, where it holds so many bytes.
#[derive(Drop)]
struct SlowWriter {
    bytes: Vec<u8>,
    fails_at: Option<usize>,
}

impl Write for SlowWriter {
    ghost contents = { λ s. Some s.bytes.items };

    fn write(&mut self, buf: &[u8]) -> io::Result<usize> {
        if self.fails_at == Some(self.bytes.len()) {
            self.fails_at = None;
            return Err(io::Error::from(ErrorKind::Other));
        }
        let count = buf.len().min(3);
        self.bytes.extend_from_slice(&buf[..count])?;
        Ok(count)
    }

    fn flush(&mut self) -> io::Result<()> {
        Ok(())
    }
}

// Whether a stream of seven bytes comes in pieces of two, and fails behind the first.
fn gives_pieces<I: Inputs>(inputs: &mut I) -> bool {
    gives(inputs, Ok(0), b"")
        && inputs.open("-") == Ok(())
        && gives(inputs, Ok(2), b"ab")
        && gives(inputs, Err(Failed), b"")
        && gives(inputs, Ok(2), b"cd")
}

#[test]
fn a_stream_is_read_in_pieces_and_fails_once(rt: HostRuntime) {
    let stream = SlowReader {
        bytes: b"abcdefg",
        fails_at: Some(5),
    };
    let mut inputs = FileInputs::with_stream(&rt, stream);
    let begins = gives_pieces(&mut inputs);
    let rest = is_read(read_all(rt.alloc(), &mut inputs, "-", 3), b"efg");
    assert!(rt; begins && rest && gives(&mut inputs, Ok(0), b""));
}

// Whether the name is missing, and nothing comes then.
fn gives_none<I: Inputs>(alloc: Global, inputs: &mut I, name: &str) -> bool {
    is_refused(read_all(alloc, inputs, name, 100), FileFault::Failed) && gives(inputs, Ok(0), b"")
}

// Whether nothing comes before a name is read, and then these bytes.
fn begins_with<I: Inputs>(alloc: Global, inputs: &mut I, name: &str, bytes: &[u8]) -> bool {
    gives(inputs, Ok(0), b"") && is_read(read_all(alloc, inputs, name, 100), bytes)
}

#[test]
fn files_are_read_by_name(rt: HostRuntime) {
    let (name, bytes) = ("rb_reading_test_input.txt", b"two lines\nof text\n");
    let is_written = fs::write(&rt, name, bytes).is_ok();
    let mut inputs = FileInputs::new(&rt);
    let is_whole = begins_with(rt.alloc(), &mut inputs, name, bytes);
    let is_removed = fs::remove_file(&rt, name).is_ok();
    let is_missing = gives_none(rt.alloc(), &mut inputs, name);
    assert!(rt; is_written && is_whole && is_removed && is_missing);
}

fn takes_pieces<O: Sink>(sink: &mut O) -> bool {
    sink.write(b"abcde") == Ok(3)
        && sink.write(b"de") == Err(Failed)
        && put_all(sink, b"defghij") == Ok(())
}

#[test]
fn a_stream_is_written_in_pieces_and_fails_once(rt: HostRuntime) {
    let mut writer = SlowWriter {
        bytes: Vec::new(rt.alloc()),
        fails_at: Some(3),
    };
    let is_taken = takes_pieces(&mut StdSink::new(&mut writer));
    assert!(rt; is_taken && writer.bytes.as_slice() == b"abcdefghij".as_slice());
}

// Whether a stream with room for four bytes fails behind them.
fn fails_where_full<O: Sink>(sink: &mut O) -> bool {
    put_all(sink, b"abc") == Ok(())
        && put_all(sink, b"de") == Err(Failed)
        && sink.write(b"") == Ok(0)
}

#[test]
fn a_stream_that_takes_nothing_fails(rt: HostRuntime) {
    let mut room = [0u8; 4];
    let is_full = fails_where_full(&mut StdSink::new(room.as_mut_slice()));
    assert!(rt; is_full && room.as_slice() == b"abcd".as_slice());
}
