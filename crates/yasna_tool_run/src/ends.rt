//! The two ends of a run: its source of bytes, and its sink.
//!
//! Each end counts its failures, so that a contract can say that a run fails with an I/O error only if one of its ends failed in
//! it. A sink also knows whether it was flushed.
ghost use Rattle.std.specs.Prelude.{◌≡◌, ℕ, Bool, List, Option, OnOk, true, false, is_some};
ghost use Rattle.std.specs.Io.{ReadsAtMost, WritesAtMost};
ghost use Rattle.std.specs.Io.KnownBytes.{ReadConsumes, WriteAppends, Keeps};
ghost use Rattle.yasna_tool_run.specs.Ends.{end_of, failure_count, is_flushed};
ghost use Rattle.yasna_tool_run.specs.Failures.{one_more, CountsFailure, CountsWrite};

mod flushed;

use flushed::Flushed;
use std::io;
use std::io::{Read, Write};

/// A source of bytes.
pub trait Source {
    // The bytes that pulls will return from here on, if they are known.
    ghost remaining: { Self → Option (List ℕ) };

    ghost failed: { Self → ℕ };

    /// Puts bytes at the start of `buffer` and returns their count: 0 only at the end, or if `buffer` has no room.
    fn pull(&mut self, buffer: &mut [u8]) -> io::Result<usize>
        ensures bound { ReadsAtMost result buffer.new }
        ensures bytes { ReadConsumes (remaining self.old) (remaining self.new) result buffer.new }
        ensures count { CountsFailure (failed self.old) (failed self.new) result };

    /// The count of pulls that failed, at most `u64::MAX`.
    fn failures(&self) -> u64
        ensures { result ≡ failed self.now };
}

/// A sink of bytes.
pub trait Sink {
    // The bytes that were taken, if they are known.
    ghost contents: { Self → Option (List ℕ) };

    ghost failed: { Self → ℕ };

    // Whether a flush reached the end since the last push.
    ghost flushed: { Self → Bool };

    /// Takes bytes from the start of `buffer` and returns their count. To take none if there are some counts as a failure.
    fn push(&mut self, buffer: &[u8]) -> io::Result<usize>
        ensures bound { WritesAtMost result buffer.now }
        ensures bytes { WriteAppends (contents self.old) (contents self.new) result buffer.now }
        ensures count { CountsWrite (failed self.old) (failed self.new) result buffer.now }
        ensures flushed { flushed self.new ≡ false };

    /// Sends the bytes on that were taken.
    fn flush(&mut self) -> io::Result<()>
        ensures bytes { Keeps (contents self.old) (contents self.new) }
        ensures count { CountsFailure (failed self.old) (failed self.new) result }
        ensures flushed { OnOk result (flushed self.new ≡ true) };

    /// The count of pushes and flushes that failed, at most `u64::MAX`.
    fn failures(&self) -> u64
        ensures { result ≡ failed self.now };
}

/// A reader or a writer of the standard library, with a count of its failures, and the sign of a flush since its last write.
#[derive(Drop)]
pub struct Counted<E> {
    end: E,
    failures: u64,
    flushed: Option<Flushed>,
}

impl<E> Counted<E> {
    /// Counts the failures of `end`, from 0.
    pub fn new(end: E) -> Counted<E>
        ensures end { end_of result ≡ end }
        ensures failures { failure_count result ≡ 0 }
    {
        Counted {
            end,
            failures: 0,
            flushed: None,
        }
    }

    /// The reader or writer, without its count.
    pub fn into_end(self) -> E
        ensures { result ≡ end_of self }
    {
        self.end
    }

    /// One failure more, up to `u64::MAX`.
    fn count_failure(&mut self)
        ensures end { end_of self.new ≡ end_of self.old }
        ensures flushed { is_flushed self.new ≡ is_flushed self.old }
        ensures failures { failure_count self.new ≡ one_more (failure_count self.old) }
    {
        self.failures = self.failures.saturating_add(1);
    }
}

impl<E: Read> Source for Counted<E> {
    ghost remaining = { λ c. E.remaining (end_of c) };

    ghost failed = { failure_count };

    fn pull(&mut self, buffer: &mut [u8]) -> io::Result<usize> {
        let outcome = self.end.read(buffer);
        if outcome.is_err() {
            self.count_failure();
        }
        outcome
    }

    fn failures(&self) -> u64 {
        self.failures
    }
}

impl<E: Write> Sink for Counted<E> {
    ghost contents = { λ c. E.contents (end_of c) };

    ghost failed = { failure_count };

    ghost flushed = { is_flushed };

    fn push(&mut self, buffer: &[u8]) -> io::Result<usize> {
        self.flushed = None;
        match self.end.write(buffer) {
            Ok(taken) => {
                if taken == 0 && !buffer.is_empty() {
                    self.count_failure();
                }
                Ok(taken)
            }
            Err(error) => {
                self.count_failure();
                Err(error)
            }
        }
    }

    fn flush(&mut self) -> io::Result<()> {
        match Flushed::of(&mut self.end) {
            Ok(flushed) => {
                self.flushed = Some(flushed);
                Ok(())
            }
            Err(error) => {
                self.count_failure();
                Err(error)
            }
        }
    }

    fn failures(&self) -> u64 {
        self.failures
    }
}
