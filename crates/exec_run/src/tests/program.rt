use super::fakes::{Arguments, End, Holding, Sink, Source, Spaces};
use exec_io::{InputStream, Uninterrupted, WordsFault, read_words};
use exec_lane::{Gate, Open};
use exec_program::{Status, execute};
use exec_round::{Out, RunFault, Through, run_into};
use std::alloc::{AllocError, Global};
use std::io::Read;
use std::sync::Wait;
use std::sync::atomic::AtomicU64;
use std::sync::atomic::Ordering::SeqCst;
use std::test::Fail;
use std::thread::Threads;

const EVERY_CALL: usize = usize::MAX;

const USAGE: &str = "usage: exec_run <workers 1-64> <quantum 1-1024>\n";

const TIMER: &str =
    r#"{"version":1,"nodes":[{"name":"n","timers":[{"name":"t","period":10,"script":[["log","now"]]}]}],"moments":[10,35]}"#;

const NOTHING: &str = r#"{"version":1}"#;

const TRANSCRIPT: &str =
    "round 1 10\nrun t timer 10 0\nlog t 10\nround 2 35\nrun t timer 35 0\nlog t 35\nend 2\n";

/// What became of one run, over writers that never fail.
#[derive(Debug, Drop)]
struct Outcome {
    status: Status,
    output: Vec<u8>,
    errors: Vec<u8>,
}

impl Outcome {
    fn is(&self, status: Status, output: &[u8], errors: &str) -> bool {
        self.status == status
            && self.output.as_slice() == output
            && self.errors.as_slice() == errors.as_bytes()
    }
}

fn words(alloc: Global, texts: &[&str]) -> Result<Vec<String>, AllocError> {
    let mut words = Vec::new(alloc);
    for text in texts {
        words.push(String::from_str(alloc, text)?)?;
    }
    Ok(words)
}

fn run<H: Threads + Wait + Sync, R: Read>(
    rt: &H,
    alloc: Global,
    words: Result<Vec<String>, WordsFault>,
    input: &mut R,
) -> Outcome {
    let mut input = InputStream::new(input);
    let mut output = Through::new(Vec::new(alloc));
    let mut errors = Through::new(Vec::new(alloc));
    let status = execute(
        rt,
        alloc,
        words,
        &Open,
        &mut input,
        &mut output,
        &mut errors,
    );
    Outcome {
        status,
        output: output.writer,
        errors: errors.writer,
    }
}

// The first argument is the program's own name, and the document is a space.
fn run_started_with<H: Threads + Wait + Sync>(
    rt: &H,
    alloc: Global,
    arguments: &[&[u8]],
) -> Outcome {
    let words = read_words(&(Arguments(arguments), alloc));
    run(rt, alloc, words, &mut Spaces(1))
}

#[test]
fn writes_the_transcript(rt: HostRuntime) -> Result<(), Fail> {
    let alloc = rt.alloc();
    for (workers, quantum) in [("1", "1"), ("2", "0001"), ("64", "1024")] {
        let mut input = Source {
            bytes: TIMER.as_bytes(),
            step: 1,
            calls: EVERY_CALL,
        };
        let run = run(
            &rt,
            alloc,
            Ok(words(alloc, &[workers, quantum])?),
            &mut input,
        );
        assert!(rt;
            run.is(Status::Written, TRANSCRIPT.as_bytes(), ""),
            "{run:?}"
        );
    }
    Ok(())
}

// The positions that were reported to it, one after another, each as a decimal digit.
#[derive(Drop)]
struct Order {
    digits: AtomicU64,
}

impl Gate for Order {
    fn pass(&self, position: usize) {
        let before = self.digits.load(SeqCst);
        self.digits.store(
            before.wrapping_mul(10).wrapping_add(position as u64),
            SeqCst,
        );
    }

    fn took(&self, _position: usize) {}
}

// Two lanes of four callbacks each.
const TWO_LANES: &str =
    r#"{"version":1,"nodes":[{"name":"n","groups":[{"name":"a","kind":"exclusive"},{"name":"b","kind":"exclusive"}],"timers":[{"name":"t1","period":1,"group":"a"},{"name":"t2","period":1,"group":"a"},{"name":"t3","period":1,"group":"a"},{"name":"t4","period":1,"group":"a"},{"name":"t5","period":1,"group":"b"},{"name":"t6","period":1,"group":"b"},{"name":"t7","period":1,"group":"b"},{"name":"t8","period":1,"group":"b"}]}],"moments":[1]}"#;

#[test]
fn passes_its_quantum(rt: HostRuntime) -> Result<(), Fail> {
    let alloc = rt.alloc();
    for (quantum, order) in [("1", 15_263_748), ("3", 12_356_748)] {
        let gate = Order {
            digits: AtomicU64::new(0),
        };
        let words = words(alloc, &["1", quantum])?;
        let mut input = InputStream::new(TWO_LANES.as_bytes());
        let mut output = Through::new(Vec::new(alloc));
        let mut errors = Through::new(Vec::new(alloc));
        execute(
            &rt,
            alloc,
            Ok(words),
            &gate,
            &mut input,
            &mut output,
            &mut errors,
        );
        assert_eq!(rt; gate.digits.load(SeqCst), order);
    }
    Ok(())
}

// This is also run with each allocation refused, one after another. If one is refused before the run, nothing is left to look
// at.
#[test]
fn tells_a_refused_growth(rt: HostRuntime) {
    let alloc = rt.alloc();
    let (Ok(words), Ok(output), Ok(errors)) = (
        words(alloc, &["1", "1"]),
        Vec::with_capacity(alloc, TRANSCRIPT.len()),
        Vec::with_capacity(alloc, USAGE.len()),
    ) else {
        return;
    };
    let mut input = InputStream::new(TIMER.as_bytes());
    let (mut output, mut errors) = (Through::new(output), Through::new(errors));
    let status = execute(
        &rt,
        alloc,
        Ok(words),
        &Open,
        &mut input,
        &mut output,
        &mut errors,
    );
    let run = Outcome {
        status,
        output: output.writer,
        errors: errors.writer,
    };
    let is_written = run.is(Status::Written, TRANSCRIPT.as_bytes(), "");
    let is_told = run.is(Status::Refused, b"", "refused 10\n");
    assert!(rt; is_written || is_told, "{run:?}");
}

#[test]
fn refuses_wrong_words_before_it_reads(rt: HostRuntime) -> Result<(), Fail> {
    let alloc = rt.alloc();
    let tables: [&[&str]; 14] = [
        &[],
        &["1"],
        &["1", "1", "1"],
        &["0", "1"],
        &["65", "1"],
        &["1", "0"],
        &["1", "1025"],
        &["", "1"],
        &["1", ""],
        &["00001", "1"],
        &["1", "10000"],
        &["+1", "1"],
        &["1", "-1"],
        &["1 ", "\u{661}"],
    ];
    for texts in tables {
        let mut input = TIMER.as_bytes();
        let run = run(&rt, alloc, Ok(words(alloc, texts)?), &mut input);
        assert!(rt; run.is(Status::Usage, b"", USAGE), "{run:?} at {texts:?}");
        assert_eq!(rt; input.len(), TIMER.len());
    }
    Ok(())
}

#[test]
fn reads_the_words_as_text(rt: HostRuntime) {
    let alloc = rt.alloc();
    let tables: [(&[&[u8]], Status, &str); 5] = [
        (&[b"exec_run", b"2", b"\xff"], Status::Usage, USAGE),
        (&[b"\xc3", b"2", b"1"], Status::Usage, USAGE),
        (&[b"exec_run", b"2", b"1", b"1"], Status::Usage, USAGE),
        (&[b"exec_run", b"2", b"1"], Status::Refused, "refused 1\n"),
        (&[], Status::Usage, USAGE),
    ];
    for (arguments, status, line) in tables {
        let run = run_started_with(&rt, alloc, arguments);
        assert!(rt; run.is(status, b"", line), "{run:?} at {arguments:?}");
    }
    let run = run(&rt, alloc, Err(WordsFault::Memory), &mut Spaces(1));
    assert!(rt; run.is(Status::Refused, b"", "refused 10\n"), "{run:?}");
}

#[test]
fn reads_up_to_the_limit(rt: HostRuntime) -> Result<(), Fail> {
    let alloc = rt.alloc();
    let run_at_limit = run(
        &rt,
        alloc,
        Ok(words(alloc, &["1", "1"])?),
        &mut Spaces(16_777_216),
    );
    assert!(rt;
        run_at_limit.is(Status::Refused, b"", "refused 1\n"),
        "{run_at_limit:?}"
    );
    let mut input = Spaces(16_777_300);
    let run_beyond = run(&rt, alloc, Ok(words(alloc, &["1", "1"])?), &mut input);
    assert!(rt;
        run_beyond.is(Status::ReadFailed, b"", "read failed\n"),
        "{run_beyond:?}"
    );
    assert_eq!(rt; input.0, 83);
    Ok(())
}

#[test]
fn fails_where_its_reader_fails(rt: HostRuntime) -> Result<(), Fail> {
    let alloc = rt.alloc();
    let whole = TIMER.as_bytes();
    // The last call is the one that finds the end.
    let calls = whole.len().div_ceil(7) + 1;
    for calls in 0..calls {
        let mut input = Source {
            bytes: whole,
            step: 7,
            calls,
        };
        let run = run(&rt, alloc, Ok(words(alloc, &["1", "1"])?), &mut input);
        let is_failed = run.is(Status::ReadFailed, b"", "read failed\n");
        assert!(rt; is_failed, "{run:?} after {calls} calls");
    }
    Ok(())
}

#[test]
fn fails_where_its_writer_fails(rt: HostRuntime) -> Result<(), Fail> {
    let alloc = rt.alloc();
    let text = TRANSCRIPT.as_bytes();
    for step in [1, 3] {
        for end in [End::Fails, End::TakesNothing] {
            for calls in 0..=text.len().div_ceil(step) {
                let mut output = Through::new(Sink {
                    taken: Vec::new(alloc),
                    step,
                    calls,
                    end,
                });
                let mut errors = Through::new(Vec::new(alloc));
                let words = words(alloc, &["1", "1"])?;
                let mut input = InputStream::new(TIMER.as_bytes());
                let status = execute(
                    &rt,
                    alloc,
                    Ok(words),
                    &Open,
                    &mut input,
                    &mut output,
                    &mut errors,
                );
                let taken = text.len().min(calls.saturating_mul(step));
                assert_eq!(rt; status, Status::WriteFailed);
                assert_eq!(rt; output.writer.taken.as_slice(), &text[..taken]);
                assert_eq!(rt; errors.writer.as_slice(), b"write failed\n".as_slice());
            }
        }
    }
    Ok(())
}

// A cancel request that meets a success.
const CANCEL: &str =
    r#"{"version":1,"nodes":[{"name":"n","timers":[{"name":"t","period":10,"script":[["goal","ac",5]]}],"actions":[{"name":"a","on_goal":[["decide",2]],"on_cancel":[["decide",2]],"script":[["succeed",9]]}],"action_clients":[{"name":"ac","action":"a","on_result":[["log","in"]]}]}],"moments":[10,11,12,13,14],"feed":[{"round":3,"action":"a","cancel":"00000000-0000-0001-0000-000000000001","stamp":0}]}"#;

const OF_CANCEL: &str =
    "round 1 10\nrun t timer 10 0\ngoal ac 00000000-0000-0001-0000-000000000001 5\nround 2 11\nrun a goal 5 0 00000000-0000-0001-0000-000000000001\ndecide a 00000000-0000-0001-0000-000000000001 2\nstate a 00000000-0000-0001-0000-000000000001 1\nstate a 00000000-0000-0001-0000-000000000001 2\nround 3 12\nrun a cancel 0 1 00000000-0000-0001-0000-000000000001\nstate a 00000000-0000-0001-0000-000000000001 3\ncode a 0 1\nrun a poll 5 0 00000000-0000-0001-0000-000000000001\nstate a 00000000-0000-0001-0000-000000000001 4\nrun ac response 1 1 00000000-0000-0001-0000-000000000001\nask ac 00000000-0000-0001-0000-000000000001\nround 4 13\nrun a ask 0 0 00000000-0000-0001-0000-000000000001\nresult a 00000000-0000-0001-0000-000000000001 4 9\nround 5 14\nrun ac result 9 4 00000000-0000-0001-0000-000000000001\nlog ac 9\nend 5\n";

// Whether a run that is written to a sink fails, and leaves there what the sink took.
fn leaves_a_front<H: Threads + Wait + Sync>(
    rt: &H,
    alloc: Global,
    document: &str,
    text: &[u8],
    sink: Sink,
) -> bool {
    let most = sink.calls.saturating_mul(sink.step);
    let mut out = Through::new(sink);
    let ended = run_into(rt, alloc, document.as_bytes(), 2, 1, &Open, &mut out);
    let taken = &text[..text.len().min(most)];
    ended == Err(RunFault::Write) && out.failed() && out.writer.taken.as_slice() == taken
}

#[test]
fn a_writer_that_fails_has_a_front(rt: HostRuntime) {
    for (document, text) in [(NOTHING, "end 0\n"), (CANCEL, OF_CANCEL)] {
        let text = text.as_bytes();
        for step in [1, 3] {
            for end in [End::Fails, End::TakesNothing] {
                for calls in 0..text.len().div_ceil(step) {
                    let sink = Sink {
                        taken: Vec::new(rt.alloc()),
                        step,
                        calls,
                        end,
                    };
                    let left = leaves_a_front(&rt, rt.alloc(), document, text, sink);
                    assert!(rt; left, "after {calls} calls of {step} bytes");
                }
            }
        }
    }
}

#[test]
fn flushes_until_it_is_not_interrupted(rt: HostRuntime) -> Result<(), Fail> {
    let alloc = rt.alloc();
    let mut input = InputStream::new(TIMER.as_bytes());
    let mut output = Through::new(Uninterrupted {
        stream: Holding {
            held: Vec::new(alloc),
            given: Vec::new(alloc),
            interruptions: 3,
        },
    });
    let mut errors = Through::new(Vec::new(alloc));
    let status = execute(
        &rt,
        alloc,
        Ok(words(alloc, &["1", "1"])?),
        &Open,
        &mut input,
        &mut output,
        &mut errors,
    );
    let Holding { held, given, .. } = output.writer.stream;
    assert!(rt; status == Status::Written && held.is_empty());
    assert!(rt; given.as_slice() == TRANSCRIPT.as_bytes());
    Ok(())
}

#[test]
fn keeps_its_status_where_the_errors_fail(rt: HostRuntime) -> Result<(), Fail> {
    let alloc = rt.alloc();
    for calls in 0..=5 {
        let mut errors = Through::new(Sink {
            taken: Vec::new(alloc),
            step: 2,
            calls,
            end: End::TakesNothing,
        });
        let mut input = InputStream::new(Spaces(3));
        let mut output = Through::new(Vec::new(alloc));
        let words = words(alloc, &["1", "1"])?;
        let status = execute(
            &rt,
            alloc,
            Ok(words),
            &Open,
            &mut input,
            &mut output,
            &mut errors,
        );
        assert_eq!(rt; status, Status::Refused);
        assert_eq!(rt;
            errors.writer.taken.as_slice(),
            &b"refused 1\n"[..2 * calls]
        );
    }
    Ok(())
}
