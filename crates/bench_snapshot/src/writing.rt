// The work of the writer.

use crate::rows::{instant, values_of};
use std::alloc::Global;
use std::sync::Wait;
use std::sync::atomic::{AtomicBool, Ordering};
use std::thread::sleep;
use std::time::{Clock, Duration, Instant};
use tq_snapshot::{StoreId, Writer};

/// The number of lines that are published together.
const AT_ONCE: u32 = 1000;

/// How many lines the writer appends in a second; 0 is no limit.
#[derive(Clone, Copy)]
pub enum Pace {
    Rest,
    Rate(u32),
}

/// Starts `rows` rows, and publishes them by the thousand.
pub fn fill_store<J: StoreId, R: Wait>(
    rt: &R,
    alloc: Global,
    writer: &mut Writer<J>,
    rows: u32,
) -> anyhow::Result<()> {
    for row in 0..rows {
        writer.start(0, &values_of(alloc, row)?, instant(row)?)?;
        if row % AT_ONCE == AT_ONCE - 1 {
            writer.publish(rt)?;
        }
    }
    writer.publish(rt)?;
    Ok(())
}

// Starts and ends rows in turn, a thousand lines in all, and publishes them.
fn write_lines<J: StoreId, R: Wait>(
    rt: &R,
    alloc: Global,
    writer: &mut Writer<J>,
    first: u32,
) -> anyhow::Result<()> {
    for row in 0..AT_ONCE / 2 {
        let row = first.saturating_add(row);
        let values = values_of(alloc, row)?;
        writer.start(0, &values, instant(row)?)?;
        writer.end(0, &values, instant(row.saturating_add(1))?)?;
    }
    writer.publish(rt)?;
    Ok(())
}

// The time that `lines` lines may take.
fn share(lines: u32, rate: u32) -> Duration {
    match u64::from(lines)
        .saturating_mul(1_000_000)
        .checked_div(u64::from(rate))
    {
        Some(micros) => Duration::from_micros(micros),
        None => Duration::from_micros(0),
    }
}

// Waits until this time has passed since the beginning.
fn wait_until<R: Clock>(rt: &R, begin: &Instant, share: Duration) -> anyhow::Result<()> {
    let elapsed = begin.elapsed(rt)?;
    if elapsed < share {
        sleep(rt, share.saturating_sub(elapsed));
    }
    Ok(())
}

/// Writes from row `first` on until `done` is set or a call is refused. Returns the number of published lines.
pub fn write_on<J: StoreId, R: Wait + Clock>(
    rt: &R,
    alloc: Global,
    writer: &mut Writer<J>,
    first: u32,
    rate: u32,
    done: &AtomicBool,
) -> anyhow::Result<u32> {
    let begin = Instant::now(rt)?;
    let mut lines: u32 = 0;
    for turn in 0..8000u32 {
        if done.load(Ordering::SeqCst) {
            break;
        }
        let row = first.saturating_add(turn.saturating_mul(AT_ONCE / 2));
        write_lines(rt, alloc, writer, row)?;
        lines = lines.saturating_add(AT_ONCE);
        wait_until(rt, &begin, share(lines, rate))?;
    }
    Ok(lines)
}
