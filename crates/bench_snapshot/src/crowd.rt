// Four readers, and the writer concurrently.

ghost use Rattle.std.specs.Prelude.{◌≡◌};

use crate::asking::{Asked, Questions, ask_all};
use crate::writing::{Pace, write_on};
use anyhow::anyhow;
use std::alloc::Global;
use std::sync::Wait;
use std::sync::atomic::{AtomicBool, Ordering};
use std::thread::{Threads, join};
use std::time::{Clock, Duration, Instant};
use tq_base::Catalogue;
use tq_snapshot::{Reader, StoreId, Writer};

/// The number of readers.
pub const READERS: u32 = 4;

/// What the readers found and in how many microseconds, and the number of lines that were written meanwhile.
#[derive(Clone, Copy)]
pub struct Outcome {
    pub asked: Asked,
    pub lines: u32,
    pub micros: u64,
}

// What a reader finds, if there is one.
fn ask_next<J: StoreId>(
    alloc: Global,
    catalogue: &Catalogue,
    reader: Option<Reader<J>>,
    questions: Questions,
    number: u32,
) -> Asked
    requires { catalogue.now ≡ J.catalogue }
{
    match reader {
        Some(reader) => ask_all(alloc, catalogue, reader, questions, number),
        None => Asked {
            answers: 0,
            rows: 0,
        },
    }
}

// What two readers find.
fn ask_two<J: StoreId + Send + Sync, R: Threads + Sync>(
    rt: &R,
    alloc: Global,
    catalogue: &Catalogue,
    first: Option<Reader<J>>,
    second: Option<Reader<J>>,
    questions: Questions,
    number: u32,
) -> Asked
    requires { catalogue.now ≡ J.catalogue }
{
    let other = number.saturating_add(questions.count);
    let (one, another) = join(
        rt,
        move || -> Asked
            requires { catalogue.now ≡ J.catalogue }
        { ask_next(alloc, catalogue, first, questions, number) },
        move || -> Asked
            requires { catalogue.now ≡ J.catalogue }
        { ask_next(alloc, catalogue, second, questions, other) },
    );
    one.and(another)
}

// What all four find.
fn ask_four<J: StoreId + Send + Sync, R: Threads + Sync>(
    rt: &R,
    alloc: Global,
    catalogue: &Catalogue,
    mut readers: Vec<Reader<J>>,
    questions: Questions,
) -> Asked
    requires { catalogue.now ≡ J.catalogue }
{
    let (first, second) = (readers.pop(), readers.pop());
    let (third, fourth) = (readers.pop(), readers.pop());
    let half = questions.count.saturating_mul(2);
    let (one, another) = join(
        rt,
        move || -> Asked
            requires { catalogue.now ≡ J.catalogue }
        { ask_two(rt, alloc, catalogue, first, second, questions, 0) },
        move || -> Asked
            requires { catalogue.now ≡ J.catalogue }
        { ask_two(rt, alloc, catalogue, third, fourth, questions, half) },
    );
    one.and(another)
}

// The writer's work meanwhile: the number of lines that it published, if none was refused.
fn write_beside<J: StoreId, R: Wait + Clock>(
    rt: &R,
    alloc: Global,
    mut writer: Writer<J>,
    first: u32,
    pace: Pace,
    done: &AtomicBool,
) -> (Writer<J>, Option<u32>) {
    let lines = match pace {
        Pace::Rest => Some(0),
        Pace::Rate(rate) => write_on(rt, alloc, &mut writer, first, rate, done).ok(),
    };
    (writer, lines)
}

/// Runs the readers' queries while the writer keeps its pace. Then closes the store.
pub fn run_session<J: StoreId + Send + Sync, R: Threads + Wait + Clock + Sync>(
    rt: &R,
    alloc: Global,
    writer: Writer<J>,
    readers: Vec<Reader<J>>,
    questions: Questions,
    pace: Pace,
) -> anyhow::Result<Outcome> {
    let catalogue = writer.catalogue().try_copy(alloc)?;
    let catalogue = &catalogue;
    let done = AtomicBool::new(false);
    let begin = Instant::now(rt)?;
    let ((writer, lines), (asked, elapsed)) = join(
        rt,
        || write_beside(rt, alloc, writer, questions.rows, pace, &done),
        || -> (Asked, Option<Duration>)
            requires { catalogue.now ≡ J.catalogue }
        {
            let asked = ask_four(rt, alloc, catalogue, readers, questions);
            done.store(true, Ordering::SeqCst);
            (asked, begin.elapsed(rt).ok())
        },
    );
    writer.close(rt);
    let lines = lines.ok_or(anyhow!("a line is refused"))?;
    let elapsed = elapsed.ok_or(anyhow!("the clock is refused"))?;
    Ok(Outcome {
        asked,
        lines,
        micros: u64::try_from(elapsed.as_micros()).unwrap_or(u64::MAX),
    })
}
