// Engines over readers and writers that move one byte a call, fail at one of the calls, or don't end in time.
use crate::checks::CHANGED;
use crate::runs::CROSSING;
use shop_engine::{
    CheckArgs, Fault, ListArgs, Memory, Reading, Sink, SolveArgs, Source, Writing, check_text,
    list_text, solve_text,
};
use shop_round::Alone;
use shop_runs::Plan;
use shop_text::Format;
use std::alloc::Global;
use std::io;
use std::io::{ErrorKind, Read, Write};
use std::process::Abort;

/// A reader of one byte a call, or of as many as there is room for, that fails once, at call `fails_at`.
#[derive(Drop)]
struct Reader<'t> {
    left: &'t [u8],
    most: usize,
    calls: u64,
    fails_at: u64,
}

impl<'t> Reader<'t> {
    fn slow(text: &'t str, fails_at: u64) -> Reader<'t> {
        Reader {
            left: text.as_bytes(),
            most: 1,
            calls: 0,
            fails_at,
        }
    }

    fn fast(left: &'t [u8]) -> Reader<'t> {
        Reader {
            left,
            most: usize::MAX,
            calls: 0,
            fails_at: 0,
        }
    }
}

impl<'t> Read for Reader<'t> {
    fn read(&mut self, buffer: &mut [u8]) -> io::Result<usize> {
        self.calls = self.calls.saturating_add(1);
        if self.calls == self.fails_at {
            return Err(ErrorKind::Interrupted.into());
        }
        let count = self.left.len().min(buffer.len()).min(self.most);
        buffer[..count].copy_from_slice(&self.left[..count]);
        self.left = &self.left[count..];
        Ok(count)
    }
}

/// A writer of one byte a call into memory that once, at call `stops_at`, fails or takes none.
#[derive(Drop)]
struct Writer {
    held: Vec<u8>,
    calls: u64,
    stops_at: u64,
    takes_none: bool,
}

impl Write for Writer {
    fn write(&mut self, buffer: &[u8]) -> io::Result<usize> {
        self.calls = self.calls.saturating_add(1);
        if self.calls == self.stops_at && self.takes_none {
            return Ok(0);
        }
        if self.calls == self.stops_at {
            return Err(ErrorKind::Interrupted.into());
        }
        let count = buffer.len().min(1);
        if self.held.extend_from_slice(&buffer[..count]).is_err() {
            return Err(ErrorKind::OutOfMemory.into());
        }
        Ok(count)
    }

    fn flush(&mut self) -> io::Result<()> {
        Ok(())
    }
}

/// The engines of the program, each with its arguments.
#[derive(Clone, Copy)]
enum Engine {
    List,
    Check,
    Solve,
}

/// Runs the engine of `check` on an instance, with a schedule beside it if one is given.
fn check<S: Source, T: Source, K: Sink>(
    alloc: Global,
    source: &mut S,
    schedule: &mut Option<T>,
    sink: &mut K,
) -> Result<(), Fault> {
    let args = CheckArgs {
        format: Format::Orlib,
        name: None,
    };
    check_text(alloc, source, schedule, sink, &args).map(|_| ())
}

/// Runs an engine from a source to a sink.
fn run<S: Source, K: Sink>(
    rt: &impl Abort,
    alloc: Global,
    engine: Engine,
    source: &mut S,
    sink: &mut K,
) -> Result<(), Fault> {
    let format = Format::Orlib;
    match engine {
        Engine::List => list_text(alloc, source, sink, &ListArgs { format }),
        Engine::Check => check(alloc, source, &mut None::<Reading<Reader>>, sink),
        Engine::Solve => {
            let plan = Plan::new(1, 100, 1).expect(rt, "a plan");
            let args = SolveArgs {
                format,
                name: None,
                plan,
                gantt: false,
            };
            solve_text(&(), alloc, source, sink, &args, &mut Alone)
        }
    }
}

/// An engine, a text, and what it writes.
type Run = (Engine, &'static str, &'static str);

static RUNS: [Run; 3] = [
    (Engine::List, CROSSING, "1 2 2\n"),
    (
        Engine::Check,
        "2 2\n0 3 1 2\n1 2 0 4\njob 0: 0 3\njob 1: 0 3\n",
        "feasible 7\n",
    ),
    (
        Engine::Solve,
        CROSSING,
        "instance 1\nsize 2 2\nmakespan 7\nbound 7\nstatus optimal\nopen 0\nrounds 1\nnodes 6\n\
        job 0: 0 3\njob 1: 0 3\n",
    ),
];

/// What an engine returns and what it has written.
type Answer<'t> = (Result<(), Fault>, &'t [u8]);

fn assert_answer(rt: &impl Abort, call: u64, told: Answer, wanted: Answer) {
    assert_eq!(rt; told, wanted, "at call {call}");
}

fn assert_calls(rt: &impl Abort, calls: u64, wanted: u64) {
    assert_eq!(rt; calls, wanted);
}

/// Makes the memory into which an engine writes.
fn room(rt: &impl Abort, alloc: Global) -> Memory {
    Memory::with_room(alloc, 1_024).expect(rt, "memory")
}

/// Returns what an engine has to answer where its source fails at call `call`, and is at its end after `calls` calls: a
/// failed read, or what is written.
fn read_answer(call: u64, calls: u64, written: &'static str) -> Answer<'static> {
    if call <= calls {
        (Err(Fault::ReadFailed), b"".as_slice())
    } else {
        (Ok(()), written.as_bytes())
    }
}

/// Asserts what an engine does on a slow reader that fails at call `call`, or is read to its end.
fn assert_read(rt: &impl Abort, alloc: Global, row: &Run, call: u64) {
    let (engine, text, written) = *row;
    let mut reader = Reader::slow(text, call);
    let mut sink = room(rt, alloc);
    let answer = run(rt, alloc, engine, &mut Reading::new(&mut reader), &mut sink);
    let calls = text.len() as u64 + 1;
    assert_answer(
        rt,
        call,
        (answer, sink.bytes()),
        read_answer(call, calls, written),
    );
    assert_calls(rt, reader.calls, call.min(calls));
}

#[test]
fn a_reader_fails_at_each_call(rt: HostRuntime) {
    for row in &RUNS {
        for call in 1..=row.1.len() as u64 + 2 {
            assert_read(&rt, rt.alloc(), row, call);
        }
    }
}

/// Asserts what an engine does on a slow writer that fails or takes none at call `call`, or takes all.
fn assert_written(rt: &impl Abort, alloc: Global, row: &Run, call: u64, takes_none: bool) {
    let (engine, text, written) = *row;
    let mut writer = Writer {
        held: Vec::new(alloc),
        calls: 0,
        stops_at: call,
        takes_none,
    };
    let mut source = Reading::new(text.as_bytes());
    let answer = run(
        rt,
        alloc,
        engine,
        &mut source,
        &mut Writing::new(&mut writer),
    );
    let calls = written.len() as u64;
    let wanted = if call <= calls {
        (
            Err(Fault::WriteFailed),
            &written.as_bytes()[..(call as usize).saturating_sub(1)],
        )
    } else {
        (Ok(()), written.as_bytes())
    };
    assert_answer(rt, call, (answer, writer.held.as_slice()), wanted);
    assert_calls(rt, writer.calls, call.min(calls));
}

#[test]
fn a_writer_fails_at_each_call(rt: HostRuntime) {
    for row in &RUNS {
        for call in 1..=row.2.len() as u64 + 1 {
            assert_written(&rt, rt.alloc(), row, call, false);
        }
    }
}

#[test]
fn a_writer_takes_none_at_each_call(rt: HostRuntime) {
    for row in &RUNS {
        for call in 1..=row.2.len() as u64 + 1 {
            assert_written(&rt, rt.alloc(), row, call, true);
        }
    }
}

/// Asserts that of a source with 100 bytes above the limit 99 are left, and nothing is written.
fn assert_too_long(rt: &impl Abort, answer: Answer, reader: &Reader) {
    let refused = Err(Fault::TooLong);
    assert_answer(rt, 0, answer, (refused, b"".as_slice()));
    assert!(rt; reader.left.len() == 99);
}

/// Makes a text of more bytes than a text may have.
fn too_long(rt: &impl Abort, alloc: Global) -> Vec<u8> {
    vec![in alloc; b' '; 16_777_216 + 100].expect(rt, "memory")
}

#[test]
fn sources_that_do_not_end_are_left(rt: HostRuntime) {
    let text = too_long(&rt, rt.alloc());
    for (engine, _, _) in &RUNS {
        let mut reader = Reader::fast(&text);
        let mut sink = room(&rt, rt.alloc());
        let mut source = Reading::new(&mut reader);
        let answer = run(&rt, rt.alloc(), *engine, &mut source, &mut sink);
        assert_too_long(&rt, (answer, sink.bytes()), &reader);
    }
}

#[test]
fn a_schedule_that_does_not_end_is_left(rt: HostRuntime) {
    let text = too_long(&rt, rt.alloc());
    let mut reader = Reader::fast(&text);
    let mut sink = room(&rt, rt.alloc());
    let mut source = Reading::new(CROSSING.as_bytes());
    let mut schedule = Some(Reading::new(&mut reader));
    let answer = check(rt.alloc(), &mut source, &mut schedule, &mut sink);
    assert_too_long(&rt, (answer, sink.bytes()), &reader);
}

/// Asserts the verdict on a changed report beside its instance, from a reader that fails at call `call`.
fn assert_schedule(rt: &impl Abort, alloc: Global, call: u64) {
    let mut reader = Reader::slow(CHANGED, call);
    let mut sink = room(rt, alloc);
    let mut source = Reading::new(CROSSING.as_bytes());
    let mut schedule = Some(Reading::new(&mut reader));
    let answer = check(alloc, &mut source, &mut schedule, &mut sink);
    let calls = CHANGED.len() as u64 + 1;
    assert_answer(
        rt,
        call,
        (answer, sink.bytes()),
        read_answer(call, calls, "feasible 7\n"),
    );
    assert_calls(rt, reader.calls, call.min(calls));
}

#[test]
fn a_schedule_fails_at_each_call(rt: HostRuntime) {
    for call in 1..=CHANGED.len() as u64 + 2 {
        assert_schedule(&rt, rt.alloc(), call);
    }
}

/// Asserts the fault of an instance whose reader fails at call `call`, with nothing read of the schedule.
fn assert_unread(rt: &impl Abort, alloc: Global, text: &str, call: u64, fault: Fault) {
    let mut reader = Reader::slow(CHANGED, 0);
    let mut sink = room(rt, alloc);
    let mut source = Reading::new(Reader::slow(text, call));
    let mut schedule = Some(Reading::new(&mut reader));
    let answer = check(alloc, &mut source, &mut schedule, &mut sink);
    assert_answer(
        rt,
        call,
        (answer, sink.bytes()),
        (Err(fault), b"".as_slice()),
    );
    assert_calls(rt, reader.calls, 0);
}

#[test]
fn a_schedule_is_not_read_where_the_instance_is_refused(rt: HostRuntime) {
    let fault = Fault::BadShape { line: 1 };
    assert_unread(&rt, rt.alloc(), "2", 9, fault);
    assert_unread(&rt, rt.alloc(), CROSSING, 5, Fault::ReadFailed);
}
