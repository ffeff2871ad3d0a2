ghost use Rattle.std.specs.Prelude.{◌≡◌, ◌*◌, ◌^◌, ◌<◌, ◌≤◌, IfOk, length, map, slice_index};

use std::alloc::{AllocError, Global};
use std::sync::atomic::{AtomicBool, AtomicU64, Ordering};
use std::test::Fail;
use std::thread;
use std::thread::Threads;
use tq_run::{Claimant, Claims, Gate, Open, Work, run_here, run_with};

// The square of each piece's number.
#[derive(Drop)]
struct Squares {
    pieces: u32,
}

impl Work for Squares {
    type Out = u64;

    ghost count = { λ s. s.pieces };

    ghost relates = { λ s i x. x ≡ i * i };

    fn pieces(&self) -> u32 {
        self.pieces
    }

    fn run(&self, i: u32) -> Result<u64, AllocError> {
        Ok(u64::from(i) * u64::from(i))
    }
}

// Each row doubled, with one row in a piece.
#[derive(Drop)]
struct Doubles<'a> {
    rows: &'a [u32],
    ghost small: { length rows.now < 2 ^ 32 },
}

impl Work for Doubles<'_> {
    type Out = u64;

    ghost count = { λ s. length s.rows.now };

    ghost relates = { λ s i x. x ≡ 2 * slice_index s.rows.now i };

    fn pieces(&self) -> u32 {
        self.rows.len() as u32
    }

    fn run(&self, i: u32) -> Result<u64, AllocError> {
        Ok(2 * u64::from(self.rows[i as usize]))
    }
}

// Proved from the contract of `run_with` alone: a caller knows its results exactly.
fn doubled<R: Threads + Sync>(
    rt: &R,
    alloc: Global,
    workers: u32,
    rows: &[u32],
) -> Result<Vec<u64>, AllocError>
    requires small { length rows.now < 2 ^ 32 }
    requires some { 1 ≤ workers }
    requires at_most { workers ≤ 16 }
    ensures { IfOk result (λ v. v.items ≡ map (λ x. 2 * x) rows.now) }
{
    run_with(rt, alloc, workers, &Doubles { rows }, &Open)
}

// Fails to allocate in piece 2.
#[derive(Drop)]
struct Refuses;

impl Work for Refuses {
    type Out = u32;

    ghost count = { λ _. 4 };

    ghost relates = { λ _ i x. x ≡ i };

    fn pieces(&self) -> u32 {
        4
    }

    fn run(&self, i: u32) -> Result<u32, AllocError> {
        if i == 2 { Err(AllocError) } else { Ok(i) }
    }
}

// Whether each piece had arrived at the gate before it was run. It counts the runs.
#[derive(Drop)]
struct SeesArrivals<'a> {
    gate: &'a Counts,
    runs: AtomicU64,
    pieces: u32,
}

impl Work for SeesArrivals<'_> {
    type Out = bool;

    ghost count = { λ s. s.pieces };

    ghost relates = { λ _ _ _. Unit {0} };

    fn pieces(&self) -> u32 {
        self.pieces
    }

    fn run(&self, i: u32) -> Result<bool, AllocError> {
        self.runs.fetch_add(1, Ordering::SeqCst);
        match self.gate.of_each.get(i as usize) {
            Some(count) => Ok(count.load(Ordering::SeqCst) == 1),
            None => Ok(false),
        }
    }
}

// Counts all arrivals, those of each piece, and the pieces that were expected before the first arrival.
#[derive(Drop)]
struct Counts {
    expected: AtomicU64,
    all: AtomicU64,
    of_each: Vec<AtomicU64>,
}

impl Gate for Counts {
    fn expect(&self, pieces: u32) {
        if self.all.load(Ordering::SeqCst) == 0 {
            self.expected.fetch_add(u64::from(pieces), Ordering::SeqCst);
        }
    }

    fn arrive(&self, i: u32) {
        self.all.fetch_add(1, Ordering::SeqCst);
        if let Some(count) = self.of_each.get(i as usize) {
            count.fetch_add(1, Ordering::SeqCst);
        }
    }
}

// Holds each piece until `wanted` have arrived, up to a limit.
#[derive(Drop)]
struct HoldsAll {
    wanted: u64,
    came: AtomicU64,
    limit_met: AtomicBool,
}

impl Gate for HoldsAll {
    fn arrive(&self, _i: u32) {
        self.came.fetch_add(1, Ordering::SeqCst);
        for _ in 0..100_000_000u32 {
            if self.came.load(Ordering::SeqCst) >= self.wanted {
                return;
            }
            thread::yield_now();
        }
        self.limit_met.store(true, Ordering::SeqCst);
    }
}

#[test]
fn squares_stand_in_order(rt: HostRuntime) -> Result<(), Fail> {
    let squares = Squares { pieces: 5 };
    let here = run_here(rt.alloc(), &squares)?;
    assert_eq!(rt; here.as_slice(), [0, 1, 4, 9, 16].as_slice());
    for workers in [1, 2, 7, 16] {
        let among = run_with(&rt, rt.alloc(), workers, &squares, &Open)?;
        assert_eq!(rt;
            among.as_slice(),
            [0, 1, 4, 9, 16].as_slice(),
            "{workers} workers"
        );
    }
    Ok(())
}

#[test]
fn a_caller_knows_its_results(rt: HostRuntime) -> Result<(), Fail> {
    let rows = doubled(&rt, rt.alloc(), 3, &[3, 1, 2, 9])?;
    assert_eq!(rt; rows.as_slice(), [6, 2, 4, 18].as_slice());
    Ok(())
}

#[test]
fn no_pieces_give_no_results(rt: HostRuntime) -> Result<(), Fail> {
    let none = Squares { pieces: 0 };
    assert_eq!(rt; run_here(rt.alloc(), &none)?.len(), 0);
    for workers in [1, 2, 7, 16] {
        assert_eq!(rt; run_with(&rt, rt.alloc(), workers, &none, &Open)?.len(), 0);
    }
    Ok(())
}

#[test]
fn three_pieces_among_sixteen_workers(rt: HostRuntime) -> Result<(), Fail> {
    let three = run_with(&rt, rt.alloc(), 16, &Squares { pieces: 3 }, &Open)?;
    assert_eq!(rt; three.as_slice(), [0, 1, 4].as_slice());
    Ok(())
}

#[test]
fn each_piece_arrives_once_before_it_is_run(rt: HostRuntime) -> Result<(), Fail> {
    for workers in [1, 2, 7, 16] {
        let mut of_each = Vec::new(rt.alloc());
        for _ in 0..1000 {
            of_each.push(AtomicU64::new(0))?;
        }
        let gate = Counts {
            expected: AtomicU64::new(0),
            all: AtomicU64::new(0),
            of_each,
        };
        let work = SeesArrivals {
            gate: &gate,
            runs: AtomicU64::new(0),
            pieces: 1000,
        };
        let results = run_with(&rt, rt.alloc(), workers, &work, &gate)?;
        assert_eq!(rt; results.len(), 1000);
        assert!(rt; results.iter().all(|seen| *seen), "{workers} workers");
        assert_eq!(rt; gate.expected.load(Ordering::SeqCst), 1000);
        assert_eq!(rt; gate.all.load(Ordering::SeqCst), 1000);
        assert_eq!(rt; work.runs.load(Ordering::SeqCst), 1000, "{workers} workers");
    }
    Ok(())
}

#[test]
fn each_piece_is_run_once_here(rt: HostRuntime) -> Result<(), Fail> {
    let gate = Counts {
        expected: AtomicU64::new(0),
        all: AtomicU64::new(0),
        of_each: Vec::new(rt.alloc()),
    };
    let work = SeesArrivals {
        gate: &gate,
        runs: AtomicU64::new(0),
        pieces: 1000,
    };
    assert_eq!(rt; run_here(rt.alloc(), &work)?.len(), 1000);
    assert_eq!(rt; work.runs.load(Ordering::SeqCst), 1000);
    Ok(())
}

#[test]
fn a_piece_without_memory_is_answered(rt: HostRuntime) -> Result<(), Fail> {
    assert!(rt; run_here(rt.alloc(), &Refuses).is_err());
    for workers in [1, 2, 7, 16] {
        assert!(rt; run_with(&rt, rt.alloc(), workers, &Refuses, &Open).is_err());
    }
    Ok(())
}

// With a failing allocation at any place: `OutOfMemory`, or the right list. `rt try --test --fail-alloc N` fails the
// Nth.
#[test]
fn refused_memory_changes_no_result(rt: HostRuntime) {
    for workers in [1, 2, 7, 16] {
        if let Ok(squares) = run_with(&rt, rt.alloc(), workers, &Squares { pieces: 5 }, &Open) {
            assert_eq!(rt;
                squares.as_slice(),
                [0, 1, 4, 9, 16].as_slice(),
                "{workers} workers"
            );
        }
    }
    if let Ok(squares) = run_here(rt.alloc(), &Squares { pieces: 5 }) {
        assert_eq!(rt; squares.as_slice(), [0, 1, 4, 9, 16].as_slice());
    }
}

#[test]
fn the_gate_holds_each_worker_until_all_have_a_piece(rt: HostRuntime) -> Result<(), Fail> {
    for workers in [2, 3, 16] {
        let gate = HoldsAll {
            wanted: u64::from(workers),
            came: AtomicU64::new(0),
            limit_met: AtomicBool::new(false),
        };
        let squares = Squares { pieces: workers };
        let results = run_with(&rt, rt.alloc(), workers, &squares, &gate)?;
        assert_eq!(rt; results.len(), workers as usize);
        assert_eq!(rt; gate.came.load(Ordering::SeqCst), u64::from(workers));
        assert!(rt; !gate.limit_met.load(Ordering::SeqCst), "{workers} workers");
    }
    Ok(())
}

#[test]
fn two_claimants_take_by_turns(rt: HostRuntime) -> Result<(), Fail> {
    let (claims, mut first) = Claims::new(rt.alloc(), 3)?;
    let mut other = claims.split(&mut first)?;
    assert_eq!(rt; claims.take(&mut first), Some(0));
    assert_eq!(rt; claims.take(&mut other), Some(1));
    assert_eq!(rt; claims.take(&mut first), Some(2));
    assert_eq!(rt; claims.take(&mut other), None);
    assert_eq!(rt; claims.take(&mut first), None);
    claims.join(&mut first, other);
    claims.close(first);
    Ok(())
}
