//! Runs whose ends fail: each returns a device error, and one whose read failed writes nothing.
ghost use Rattle.std.specs.Prelude.{◌≡◌, ◌-◌, ◌^◌, ◌<◌, None};

use super::strings;
use crate::checks::{holds, is_kind};
use std::alloc::Global;
use std::io;
use std::io::{Read, Write};
use yasna::{ASN1ErrorKind, ASN1Result, BERMode};
use yasna_tool_run::ends::{Counted, Sink, Source};
use yasna_tool_run::engine::{RunFault, run};
use yasna_tool_run::tool::tool;

/// The encoding of the pair of 10 and TRUE.
const PAIR: [u8; 8] = [0x30, 0x06, 0x02, 0x01, 0x0a, 0x01, 0x01, 0xff];

const INPUT: &str = "io\n";

const OUTPUT: &str = "io\n";

/// Gives at most four bytes a pull, and fails once its pulls are used up.
#[derive(Drop)]
struct FailingSource {
    rest: &'static [u8],
    pulls: u8,
    failures: u64,
}

impl FailingSource {
    /// The encoding of the pair, which takes two pulls, and a third to see its end.
    fn new(pulls: u8) -> FailingSource
        ensures { result.failures ≡ 0 }
    {
        FailingSource {
            rest: &PAIR,
            pulls,
            failures: 0,
        }
    }
}

impl Source for FailingSource {
    ghost remaining = { λ _. None };

    ghost failed = { λ s. s.failures };

    fn pull(&mut self, buffer: &mut [u8]) -> io::Result<usize> {
        let Some(pulls) = self.pulls.checked_sub(1) else {
            self.failures = self.failures.saturating_add(1);
            return Err(io::Error::other("no pull is left"));
        };
        self.pulls = pulls;
        let room = buffer.len().min(4);
        self.rest.read(&mut buffer[..room])
    }

    fn failures(&self) -> u64 {
        self.failures
    }
}

/// Takes bytes while it has room, and then fails.
#[derive(Drop)]
struct FailingSink {
    room: usize,
    fails_at_flush: bool,
    failures: u64,
    flushed: bool,
}

impl FailingSink {
    fn new(room: usize, fails_at_flush: bool) -> FailingSink
        ensures { result.failures ≡ 0 }
    {
        FailingSink {
            room,
            fails_at_flush,
            failures: 0,
            flushed: false,
        }
    }
}

impl Sink for FailingSink {
    ghost contents = { λ _. None };

    ghost failed = { λ s. s.failures };

    ghost flushed = { λ s. s.flushed };

    fn push(&mut self, buffer: &[u8]) -> io::Result<usize> {
        self.flushed = false;
        let taken = buffer.len().min(self.room);
        if taken == 0 && !buffer.is_empty() {
            self.failures = self.failures.saturating_add(1);
            return Err(io::Error::other("no room is left"));
        }
        self.room -= taken;
        Ok(taken)
    }

    fn flush(&mut self) -> io::Result<()> {
        if self.fails_at_flush {
            self.failures = self.failures.saturating_add(1);
            return Err(io::Error::other("no flush"));
        }
        self.flushed = true;
        Ok(())
    }

    fn failures(&self) -> u64 {
        self.failures
    }
}

/// How a run over pairs ends.
#[derive(Clone, Copy)]
enum Ending {
    Written,
    Failed,
    Cut,
}

impl Ending {
    fn is(self, outcome: Result<(), RunFault>) -> bool {
        match outcome {
            Ok(()) => matches!(self, Ending::Written),
            Err(RunFault::Device) => matches!(self, Ending::Failed),
            Err(RunFault::Refused(error)) => {
                matches!(self, Ending::Cut) && is_kind(error.kind(), ASN1ErrorKind::Eof)
            }
        }
    }
}

/// Names, how many pulls there are, how the run ends, what is written, and how many reads failed.
static PULLS: [(&str, u8, Ending, &[u8], u64); 4] = [
    ("the first pull fails", 0, Ending::Failed, &[], 1),
    ("the second pull fails", 1, Ending::Failed, &[], 1),
    ("the third pull fails", 2, Ending::Failed, &[], 1),
    ("three pulls read a pair", 3, Ending::Written, &PAIR, 0),
];

fn is_read(alloc: Global, pulls: u8, ending: Ending, output: &[u8], failures: u64) -> bool {
    let mut reader = FailingSource::new(pulls);
    let mut writer = Counted::new(Vec::new(alloc));
    let outcome = run::<(i64, bool), _, _>(alloc, BERMode::Ber, &mut reader, &mut writer);
    ending.is(outcome) && writer.into_end().as_slice() == output && reader.failures() == failures
}

/// Names, the input, for how many bytes there is room, whether the flush fails, how the run ends, and how many writes failed. A
/// rejection comes before anything is written, and so before a writer could fail.
static ROOMS: [(&str, &[u8], usize, bool, Ending, u64); 5] = [
    ("the first write fails", &PAIR, 0, false, Ending::Failed, 1),
    ("a later write fails", &PAIR, 3, false, Ending::Failed, 1),
    ("the flush fails", &PAIR, 8, true, Ending::Failed, 1),
    ("a pair has room", &PAIR, 8, false, Ending::Written, 0),
    (
        "a rejection comes before a write",
        &[0x30, 0x06, 0x02, 0x01, 0x0a, 0x01, 0x01],
        0,
        true,
        Ending::Cut,
        0,
    ),
];

/// Whether the run ends so, and no room is left.
fn is_written(
    alloc: Global,
    input: &[u8],
    (room, fails_at_flush): (usize, bool),
    ending: Ending,
    failures: u64,
) -> bool {
    let mut reader = Counted::new(input);
    let mut writer = FailingSink::new(room, fails_at_flush);
    let outcome = run::<(i64, bool), _, _>(alloc, BERMode::Ber, &mut reader, &mut writer);
    ending.is(outcome) && writer.room == 0 && writer.failures() == failures
}

/// Names, how many pulls there are, for how many bytes there is room, and what the program says of the failure.
static FAILURES: [(&str, u8, usize, &str); 2] = [
    ("a failed read has its text", 0, 8, INPUT),
    ("a failed write has its text", 3, 0, OUTPUT),
];

/// Whether the program says this of a failure of its ends, and has the status of one.
fn says(alloc: Global, pulls: u8, room: usize, error: &str) -> ASN1Result<bool> {
    let words = strings(alloc, "ber pair")?;
    let mut reader = FailingSource::new(pulls);
    let mut writer = FailingSink::new(room, false);
    let mut errors = Vec::new(alloc);
    let status = tool(alloc, &words, &mut reader, &mut writer, &mut errors);
    Ok(status == 3 && errors.as_slice() == error.as_bytes() && writer.room == room)
}

/// Whether the program says once that a slice has too little room. It takes nothing once it is full.
fn is_full(alloc: Global, mut room: [u8; 3]) -> ASN1Result<bool> {
    let words = strings(alloc, "ber pair")?;
    let mut reader = Counted::new(&PAIR[..]);
    let mut writer = Counted::new(&mut room[..]);
    let mut errors = Vec::new(alloc);
    let status = tool(alloc, &words, &mut reader, &mut writer, &mut errors);
    let is_said = status == 3 && errors.as_slice() == OUTPUT.as_bytes() && writer.failures() == 1;
    Ok(is_said && room == [0x30, 0x06, 0x02])
}

/// Takes all bytes, and counts its flushes.
#[derive(Drop)]
struct Flushed {
    flushes: u8,
}

impl Write for Flushed {
    ghost contents = { λ _. None };

    fn write(&mut self, buffer: &[u8]) -> io::Result<usize> {
        Ok(buffer.len())
    }

    fn flush(&mut self) -> io::Result<()> {
        self.flushes = self.flushes.saturating_add(1);
        Ok(())
    }
}

fn is_flushed_once(alloc: Global) -> bool {
    let mut reader = Counted::new(&PAIR[..]);
    let mut writer = Counted::new(Flushed { flushes: 0 });
    let outcome = run::<(i64, bool), _, _>(alloc, BERMode::Ber, &mut reader, &mut writer);
    outcome.is_ok() && writer.into_end().flushes == 1
}

// Failed reads, failed writes, what is said of them, and that the output is flushed.
#[test]
fn failed_reads_and_writes_have_their_status_and_text(rt: HostRuntime) {
    let alloc = rt.alloc();
    for row in &PULLS {
        let is_so = is_read(alloc, row.1, row.2, row.3, row.4);
        holds(&rt, row.0, Ok(is_so));
    }
    for row in &ROOMS {
        let is_so = is_written(alloc, row.1, (row.2, row.3), row.4, row.5);
        holds(&rt, row.0, Ok(is_so));
    }
    for row in &FAILURES {
        holds(&rt, row.0, says(alloc, row.1, row.2, row.3));
    }
    holds(&rt, "a full slice has its text", is_full(alloc, [0; 3]));
    holds(
        &rt,
        "the output is flushed once",
        Ok(is_flushed_once(alloc)),
    );
}
