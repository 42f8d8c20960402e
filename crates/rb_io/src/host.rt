// The machine's files and streams. They tell no bytes, and count what fails.
ghost use Rattle.std.proofs.Common.{rules};
ghost use Rattle.std.specs.Prelude.{◌≡◌, ◌≤◌, ◌<◌, ◌↔◌, false, [], IsTrue, IsOk, IfOk, OnOk, OnErr, MatchResult, codes, length};
ghost use Rattle.std.specs.Io.KnownBytes.{ReadConsumes, WriteAppends};
ghost use Rattle.rb_io.specs.Outside.{HasCause, counted};

use crate::{Failed, Inputs, Sink};
use std::fs;
use std::io::{Read, Write};
use std::rt::Files;

/// What is open: nothing, the stream or a file.
#[derive(Drop)]
enum Source<F> {
    Closed,
    Stream,
    File(F),
}

/// The machine's files by their names, and a stream by the name `-` alone. It tells no bytes: that a
/// file holds what was read is trusted. A read takes from what is open the very bytes that it gives.
/// Whatever makes an open or a read fail is counted.
#[derive(Drop)]
pub struct FileInputs<'a, R: Files, S: Read> {
    rt: &'a R,
    source: Source<R::File>,
    stream: S,
    given: u64,
    faults: u64,
}

impl<'a, R: Files + Input> FileInputs<'a, R, R::Reader> {
    /// With no open name. The stream is standard input.
    pub fn new(rt: &'a R) -> Self
        ensures is_closed { ⟦<FileInputs<'a, R, R::Reader> as Inputs>⟧.is_open result ≡ false }
        ensures given { ⟦<FileInputs<'a, R, R::Reader> as Inputs>⟧.given result ≡ 0 }
        ensures faults { ⟦<FileInputs<'a, R, R::Reader> as Inputs>⟧.faults result ≡ 0 }
    {
        FileInputs::with_stream(rt, rt.reader())
    }
}

impl<'a, R: Files, S: Read> FileInputs<'a, R, S> {
    /// With no open name, over a stream of the caller.
    pub fn with_stream(rt: &'a R, stream: S) -> Self
        ensures is_closed { ⟦<FileInputs<'a, R, S> as Inputs>⟧.is_open result ≡ false }
        ensures given { ⟦<FileInputs<'a, R, S> as Inputs>⟧.given result ≡ 0 }
        ensures faults { ⟦<FileInputs<'a, R, S> as Inputs>⟧.faults result ≡ 0 }
        ensures stream { result.stream ≡ stream }
    {
        FileInputs {
            rt,
            source: Source::Closed,
            stream,
            given: 0,
            faults: 0,
        }
    }
}

impl<'a, R: Files, S: Read> Inputs for FileInputs<'a, R, S> {
    ghost use Rattle.rb_io.specs.Host.{has_source, is_stream, source_left};

    ghost tells = { λ _. false };

    ghost holds = { λ _ _. [] };

    ghost is_open = { λ s. has_source s.source };

    ghost opened = { λ _ _. false };

    ghost whole = { λ _. [] };

    ghost left = { λ _. [] };

    ghost given = { λ s. s.given };

    ghost faults = { λ s. s.faults };

    // The name `-` alone opens the stream, which never fails. No byte of the stream is taken.
    fn open(&mut self, name: &str) -> Result<(), Failed>
        ensures is_open { OnOk result (IsTrue (has_source self.new.source)) }
        ensures is_closed { OnErr result (has_source self.new.source ≡ false) }
        ensures is_stream { IsTrue (is_stream self.new.source) ↔ (name.now ≡ codes "-") }
        ensures stream_opens { name.now ≡ codes "-" → IsOk result }
        ensures stream { self.new.stream ≡ self.old.stream }
        ensures given { self.new.given ≡ 0 }
        ensures raised { OnErr result (self.new.faults ≡ counted self.old.faults 1) }
        ensures cause { HasCause self.old.faults self.new.faults result }
    {
        self.given = 0;
        self.source = Source::Closed;
        if name == "-" {
            self.source = Source::Stream;
            return Ok(());
        }
        match fs::open(self.rt, name) {
            Ok(file) => {
                self.source = Source::File(file);
                Ok(())
            }
            Err(_) => {
                self.faults = self.faults.saturating_add(1);
                Err(Failed)
            }
        }
    }

    // The open source loses the bytes that were given, where it is known what is left of it. Where
    // the stream is not open, none of it is taken.
    fn read(&mut self, buf: &mut [u8]) -> Result<usize, Failed>
        ensures is_open { has_source self.new.source ≡ has_source self.old.source }
        ensures is_stream { is_stream self.new.source ≡ is_stream self.old.source }
        ensures none_open { has_source self.old.source ≡ false → IfOk result (λ n. n ≡ 0) }
        ensures bound { IfOk result (λ n. n ≤ length buf.new) }
        ensures bytes { ReadConsumes
            (source_left R.File.remaining S.remaining self.old.source self.old.stream)
            (source_left R.File.remaining S.remaining self.new.source self.new.stream) result buf.new }
        ensures stream { is_stream self.old.source ≡ false → self.new.stream ≡ self.old.stream }
        ensures given { MatchResult result
            (λ n. self.new.given ≡ counted self.old.given n)
            (λ _. self.new.given ≡ self.old.given) }
        ensures raised { OnErr result (self.new.faults ≡ counted self.old.faults 1) }
        ensures cause { HasCause self.old.faults self.new.faults result }
    {
        let answer = match &mut self.source {
            Source::Closed => Ok(0),
            Source::Stream => self.stream.read(buf),
            Source::File(file) => file.read(buf),
        };
        match answer {
            Ok(count) => {
                self.given = self.given.saturating_add(count as u64);
                Ok(count)
            }
            Err(_) => {
                self.faults = self.faults.saturating_add(1);
                Err(Failed)
            }
        }
    }

    ghost makes_up = { λ s told. Prim.search rules };

    ghost when_closed = { λ s told. Prim.search rules };

    ghost when_opened = { λ s name told. Prim.search rules };
}

/// A stream of the machine that is written to. It tells no bytes: that the stream keeps what was
/// written is trusted. A write puts to the stream the very bytes that it takes. One that fails is
/// counted, and so is one that takes nothing of a piece that is not empty.
#[derive(Drop)]
pub struct StdSink<W: Write> {
    inner: W,
    faults: u64,
}

impl<W: Write> StdSink<W> {
    /// Over a stream.
    pub fn new(inner: W) -> Self
        ensures faults { ⟦<StdSink<W> as Sink>⟧.faults result ≡ 0 }
        ensures inner { result.inner ≡ inner }
    {
        StdSink { inner, faults: 0 }
    }
}

impl<W: Write> Sink for StdSink<W> {
    ghost tells = { λ _. false };

    ghost put = { λ _. [] };

    ghost faults = { λ s. s.faults };

    // What the stream holds grows by the bytes that were taken, where it is known.
    #[tactic(auto, using(crate::proofs::Streams::keeps_of_none))]
    fn write(&mut self, bytes: &[u8]) -> Result<usize, Failed>
        ensures bound { IfOk result (λ n. n ≤ length bytes.now) }
        ensures some { 0 < length bytes.now → IfOk result (λ n. 0 < n) }
        ensures bytes { WriteAppends (W.contents self.old.inner) (W.contents self.new.inner) result bytes.now }
        ensures raised { OnErr result (self.new.faults ≡ counted self.old.faults 1) }
        ensures cause { HasCause self.old.faults self.new.faults result }
    {
        match self.inner.write(bytes) {
            Ok(count) if count > 0 || bytes.is_empty() => Ok(count),
            _ => {
                self.faults = self.faults.saturating_add(1);
                Err(Failed)
            }
        }
    }
}
