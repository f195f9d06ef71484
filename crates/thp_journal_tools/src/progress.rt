//! The progress of reading a journal, and the lines that show it.
ghost use Rattle.std.specs.Prelude.{◌≡◌, ◌≤◌, ◌+◌, ◌*◌, ◌/◌, ◌-◌, ◌^◌, ◌++◌, [], IfOk, List, OnOk, ℕ, length, min, max, false, IfErr, IfSome, true};
ghost use Rattle.std.specs.Duration.{as_nanos};
ghost use Rattle.thp_journal_tools.specs.Progress.{mebibytes, progress_line, may_show, ShowsProgress};
ghost use Rattle.thp_journal_tools.specs.Reaching.{HasCounted, Looks, Removes, HasShown, IsReadOf};
ghost use Rattle.thp_cli.specs.Prelude.{ReadsOn, device_of, IsReadingFault};
ghost use Rattle.thp_script.specs.Prelude.{max_counted, IsFrontOf};
ghost use Rattle.thp_journal_tools.specs.Counting.{begins_after, events_from};

use std::alloc::{AllocError, Global};
use std::io::{Read, Write};
use std::time::{Clock, Duration, Instant};
use thp_cli::{Program, RunFault, Watched, name_front, read_parts, report_message};
use thp_journal_writer::{put, put_number};
use thp_script::{MAX_COUNTED, ReadsParts};

/// The text that removes a line of progress: `\r`, ESC, `[K`.
const REMOVAL: &[u8] = b"\r\x1b[K";

/// The number of bytes in a mebibyte.
const MEBIBYTE: u64 = 1_048_576;

/// Returns the number of bytes per second, for this number of bytes in this time.
fn rate(bytes: u64, time: Duration) -> u64
    ensures { result ≡ min (bytes * 1_000_000 / max (as_nanos time / 1_000) 1) (2 ^ 64 - 1) }
{
    let rate = u128::from(bytes) * 1_000_000 / time.as_micros().max(1);
    rate.min(u128::from(u64::MAX)) as u64
}

/// Appends a number of bytes as mebibytes with one decimal, and the unit.
#[tactic(auto, unfolding(crate::specs::Progress::mebibytes))]
fn put_mebibytes(text: &mut Vec<u8>, bytes: u64) -> Result<(), AllocError>
    ensures { OnOk result (text.new.items ≡ text.old.items ++ mebibytes bytes) }
{
    put_number(text, bytes / MEBIBYTE, b'.')?;
    put_number(text, bytes % MEBIBYTE * 10 / MEBIBYTE, b' ')?;
    put(text, b"MiB")
}

/// Returns a program's line of progress, which replaces the current one.
#[tactic(auto, unfolding(crate::specs::Progress::progress_line))]
fn line_of(
    alloc: Global,
    program: Program,
    bytes: u64,
    events: u64,
    rate: u64,
) -> Result<Vec<u8>, AllocError>
    ensures { IfOk result (λ text. text.items ≡ progress_line program (record { bytes = bytes; events = events; rate = rate })) }
{
    let mut text = Vec::new(alloc);
    put(&mut text, REMOVAL)?;
    put(&mut text, name_front(program).as_bytes())?;
    put_mebibytes(&mut text, bytes)?;
    put(&mut text, b", ")?;
    put_number(&mut text, events, b' ')?;
    put(&mut text, b"events, ")?;
    put_mebibytes(&mut text, rate)?;
    put(&mut text, b"/s")?;
    Ok(text)
}

/// The progress of reading a journal, and its state on the screen.
#[derive(Drop)]
pub(crate) struct Progress {
    // the program that shows the lines
    program: Program,
    // the number of bytes read
    bytes: u64,
    counted: EventCount,
    pace: Pace,
    // whether the screen shows a line
    stands: bool,
}

impl Progress {
    /// Returns the progress before the first byte. The first line is due at once, or after the usual interval.
    pub(crate) fn begin<C: Clock>(clock: &C, program: Program, at_once: bool) -> Progress
        ensures program { result.program ≡ program }
        ensures counted { HasCounted result [] }
        ensures stands { result.stands ≡ false }
    {
        Progress {
            program,
            bytes: 0,
            counted: EventCount::nothing(),
            pace: Pace::begin(clock, at_once),
            stands: false,
        }
    }

    /// Shows the progress, if a line is due and the screen has not failed.
    fn show<S: Write, C: Clock>(&mut self, alloc: Global, screen: &mut Screen<S, C>)
        ensures program { self.new.program ≡ self.old.program }
        ensures bytes { self.new.bytes ≡ self.old.bytes }
        ensures counted { self.new.counted ≡ self.old.counted }
        ensures shown { Looks S.contents self.old.stands self.new screen.old.writer screen.new.writer }
    {
        if screen.writer.failed() {
            return;
        }
        let Some(time) = self.pace.due(&screen.clock) else {
            return;
        };
        let rate = rate(self.bytes, time);
        let Ok(line) = line_of(alloc, self.program, self.bytes, self.counted.events, rate) else {
            return;
        };
        self.stands = true;
        report_message(&mut screen.writer, line.as_slice());
    }

    /// Counts more bytes, and shows the progress if a line is due.
    pub(crate) fn look<S: Write, C: Clock>(
        &mut self,
        alloc: Global,
        bytes: &[u8],
        screen: &mut Screen<S, C>,
    )
        requires room { self.old.bytes + length bytes.now ≤ u64.MAX }
        requires counted { self.old.counted.events ≤ self.old.bytes }
        ensures program { self.new.program ≡ self.old.program }
        ensures counted { (text : List ℕ) → HasCounted self.old text → HasCounted self.new (text ++ bytes.now) }
        ensures shown { Looks S.contents self.old.stands self.new screen.old.writer screen.new.writer }
    {
        self.bytes += bytes.len() as u64;
        self.counted = self.counted.with(bytes);
        self.show(alloc, screen);
    }

    /// Ends the progress, and removes the line on the screen.
    pub(crate) fn end<S: Write, C>(self, screen: &mut Screen<S, C>)
        ensures { Removes S.contents self.stands screen.old.writer screen.new.writer }
    {
        if self.stands && !screen.writer.failed() {
            report_message(&mut screen.writer, REMOVAL);
        }
    }
}

/// The least number of seconds between two lines of progress.
const SECONDS: u64 = 1;

/// The screen that shows the progress of a check: a device and a clock.
#[derive(Drop)]
pub struct Screen<S, C> {
    /// The device for lines of progress only: other messages go to standard error through another one.
    pub writer: Watched<S>,
    /// The clock that determines when a line is due, and how fast the check is.
    pub clock: C,
    /// Whether progress is shown after a second even if it is not requested.
    pub is_terminal: bool,
}

/// The times at which lines of progress are due.
#[derive(Drop)]
pub(crate) struct Pace {
    // none if the clock can't be read
    began: Option<Instant>,
    // the time at which a line was last due
    due: Option<Instant>,
}

impl Pace {
    /// Begins a check. The first line is due at once, or after the usual interval.
    pub(crate) fn begin<C: Clock>(clock: &C, at_once: bool) -> Pace {
        let began = Instant::now(clock).ok();
        let due = if at_once { None } else { began };
        Pace { began, due }
    }

    /// Returns the time that the check has taken, if a line is due.
    pub(crate) fn due<C: Clock>(&mut self, clock: &C) -> Option<Duration> {
        let began = self.began?;
        let now = Instant::now(clock).ok()?;
        if let Some(due) = self.due {
            if now.duration_since(due).as_secs() < SECONDS {
                return None;
            }
        }
        self.due = Some(now);
        Some(now.duration_since(began))
    }
}

/// The greatest number of bytes of one read.
pub(crate) const PART: usize = 65_536;

/// Reads all of a reader's bytes in parts, and shows the progress after each.
fn read_on<R: Read, P: ReadsParts + Drop, S: Write, C: Clock>(
    alloc: Global,
    first: P,
    reader: &mut Watched<R>,
    progress: &mut Progress,
    screen: &mut Screen<S, C>,
) -> Result<P, RunFault>
    requires reader { reader.old.failed ≡ false }
    requires screen { screen.old.writer.failed ≡ false }
    requires nothing { HasCounted progress.old [] }
    requires empty { progress.old.stands ≡ false }
    ensures parts { IfOk result (λ last. (bytes : List ℕ) × IfSome (R.remaining reader.old.device) (IsFrontOf max_counted bytes) × P.has_read first bytes last) }
    ensures flag { IfOk result (λ _. reader.new.failed ≡ false) }
    ensures fault { IfErr result (IsReadingFault reader.new.failed) }
    ensures calls { ReadsOn max_counted reader.new.failed reader.old.calls reader.new.calls }
    ensures shown { (bytes : List ℕ) × IsReadOf (R.remaining reader.old.device) bytes × HasShown progress.old.program bytes progress.new.stands (device_of S.contents screen.old.writer screen.new.writer) }
{
    let mut text = first;
    let mut part = [0u8; PART];
    let mut left = MAX_COUNTED;
    loop {
        let Some(count) = reader.read(&mut part) else {
            return Err(RunFault::Read);
        };
        if count == 0 {
            return Ok(text);
        }
        text = text.read_part(&part[..count])?;
        if count > left {
            return Ok(text);
        }
        left -= count;
        progress.look(alloc, &part[..count], screen);
    }
}

/// Reads all of a reader's bytes in parts. Shows the progress in lines of the program, if that is requested or the screen is a
/// terminal, and removes it at the end.
pub fn read_journal<R: Read, P: ReadsParts + Drop, S: Write, C: Clock>(
    alloc: Global,
    program: Program,
    asked: bool,
    first: P,
    reader: &mut Watched<R>,
    screen: &mut Screen<S, C>,
) -> Result<P, RunFault<u64>>
    requires reader { reader.old.failed ≡ false }
    requires screen { screen.old.writer.failed ≡ false }
    ensures parts { IfOk result (λ last. (bytes : List ℕ) × IfSome (R.remaining reader.old.device) (IsFrontOf max_counted bytes) × P.has_read first bytes last) }
    ensures flag { IfOk result (λ _. reader.new.failed ≡ false) }
    ensures fault { IfErr result (IsReadingFault reader.new.failed) }
    ensures calls { ReadsOn max_counted reader.new.failed reader.old.calls reader.new.calls }
    ensures shown { ShowsProgress program (may_show asked screen.old.is_terminal) (R.remaining reader.old.device) (device_of S.contents screen.old.writer screen.new.writer) }
{
    if asked || screen.is_terminal {
        let mut progress = Progress::begin(&screen.clock, program, asked);
        let read = read_on(alloc, first, reader, &mut progress, screen);
        progress.end(screen);
        Ok(read?)
    } else {
        Ok(read_parts(first, MAX_COUNTED, reader)?)
    }
}

/// The number of bytes counted at a time, with a counter of one byte.
const FEW: usize = 240;

/// The progress of counting the events in a journal's text.
#[derive(Clone, Copy, Debug, PartialEq, Eq)]
pub(crate) struct EventCount {
    /// The number of lines with an event, recognised by the digit that they begin with.
    pub(crate) events: u64,
    /// Whether the next byte is the first of a line.
    pub(crate) begins: bool,
}

impl EventCount {
    /// Returns the count before the first byte.
    pub(crate) fn nothing() -> EventCount
        ensures { result ≡ record { events = 0; begins = true } }
    {
        EventCount {
            events: 0,
            begins: true,
        }
    }

    /// Adds at most `FEW` bytes. The loop has no branch, so it processes sixteen bytes at a time.
    fn with_few(self, bytes: &[u8]) -> EventCount
        requires few { length bytes.now ≤ FEW }
        requires room { self.events + length bytes.now ≤ u64.MAX }
        ensures events { result.events ≡ self.events + events_from self.begins bytes.now }
        ensures begins { result.begins ≡ begins_after self.begins bytes.now }
    {
        let mut events: u8 = 0;
        let mut begins = self.begins;
        for byte in bytes {
            events += u8::from(begins & byte.is_ascii_digit());
            begins = *byte == b'\n';
        }
        EventCount {
            events: self.events + u64::from(events),
            begins,
        }
    }

    /// Adds bytes.
    pub(crate) fn with(self, bytes: &[u8]) -> EventCount
        requires { self.events + length bytes.now ≤ u64.MAX }
        ensures events { result.events ≡ self.events + events_from self.begins bytes.now }
        ensures begins { result.begins ≡ begins_after self.begins bytes.now }
    {
        let mut counted = self;
        let mut rest = bytes;
        while !rest.is_empty() {
            let (few, after) = rest.split_at(rest.len().min(FEW));
            counted = counted.with_few(few);
            rest = after;
        }
        counted
    }
}
