// Several workers, each of which claims piece after piece.
ghost use Rattle.std.specs.Prelude.{◌≡◌, ◌+◌, ◌-◌, ◌<◌, ◌≤◌, ◌++◌, [], ◌∷◌, IfOk, OnOk, vec_len, All};
ghost use denote.Param.Send.{IsSync};
ghost use Rattle.tq_run.specs.Results.{IsResultList};
ghost use Rattle.tq_run.specs.Sharing.{AreNewClaimants, IsFresh, IsWorkerResult, Leads};

use crate::claiming::{Claimant, Claims};
use crate::ordering::in_order;
use crate::pieces::{Gate, Work};
use std::alloc::{AllocError, Global};
use std::thread::{Threads, join};

// The result of a worker: its claimant, and each result with its piece's number.
#[derive(Drop)]
struct WorkerResult<X> {
    by: Claimant,
    done: Vec<(u32, X)>,
}

// Reports a claimed piece to the gate and runs it.
fn run_piece<W: Work, G: Gate>(
    work: &W,
    gate: &G,
    i: u32,
    done: &mut Vec<(u32, W::Out)>,
) -> Result<(), AllocError>
where
    W::Out: Drop,
    requires { i < W.count work.now }
    ensures { OnOk result ((x : _) × (done.new.items ≡ done.old.items ++ (i, x) ∷ []) × W.relates work.now i x) }
{
    gate.arrive(i);
    done.push((i, work.run(i)?))?;
    Ok(())
}

// Claims pieces and runs them until none is left.
fn run_claimed<W: Work, G: Gate>(
    alloc: Global,
    claims: &Claims,
    work: &W,
    gate: &G,
    mut by: Claimant,
) -> Result<WorkerResult<W::Out>, AllocError>
where
    W::Out: Drop,
    requires pieces { claims.now.pieces ≡ W.count work.now }
    requires fresh { IsFresh claims.now by }
    ensures share { IfOk result (λ s. IsWorkerResult claims.now (W.relates work.now) s.by s.done.items) }
    ensures first { IfOk result (λ s. s.by.knows.first ≡ by.knows.first) }
    ensures splits { IfOk result (λ s. s.by.knows.splits ≡ by.knows.splits) }
    ensures joins { IfOk result (λ s. s.by.knows.joins ≡ by.knows.joins) }
{
    let mut done = Vec::new(alloc);
    while let Some(i) = claims.take(&mut by) {
        run_piece(work, gate, i, &mut done)?;
    }
    Ok(WorkerResult { by, done })
}

// Runs each claimant of `others` in a thread of its own, or on the calling thread if no thread can be started. `first`
// runs on the calling thread, and then joins the others.
#[cycle(workers)]
fn run_claimants<R: Threads + Sync, W: Work + Sync, G: Gate + Sync>(
    rt: &R,
    alloc: Global,
    claims: &Claims,
    work: &W,
    gate: &G,
    first: Claimant,
    mut others: Vec<Claimant>,
) -> Result<WorkerResult<W::Out>, AllocError>
where
    W::Out: Send + Drop,
    requires { AreNewClaimants claims.now (W.count work.now) first others.items }
    ensures share { IfOk result (λ s. IsWorkerResult claims.now (W.relates work.now) s.by s.done.items) }
    ensures leads { IfOk result (λ s. Leads first.knows.splits (vec_len others) s.by) }
{
    let Some(by) = others.pop() else {
        return run_claimed(alloc, claims, work, gate, first);
    };
    let theirs = move || -> Result<WorkerResult<W::Out>, AllocError>
        requires { (claims.now.pieces ≡ W.count work.now) × IsFresh claims.now by }
        ensures { IfOk result (λ s. IsWorkerResult claims.entry.now (W.relates work.entry.now) s.by s.done.items) }
    { run_claimed(alloc, claims, work, gate, by) };
    let ours = move || -> Result<WorkerResult<W::Out>, AllocError>
        requires { IsSync R.row × IsSync W.row × IsSync G.row
            × AreNewClaimants claims.now (W.count work.now) first others.items }
        ensures { IfOk result (λ s. IsWorkerResult claims.entry.now (W.relates work.entry.now) s.by s.done.items
            × Leads first.knows.splits (vec_len others) s.by) }
    { run_claimants(rt, alloc, claims, work, gate, first, others) };
    let (theirs, ours) = join(rt, theirs, ours);
    let mut all = ours?;
    let WorkerResult { by, mut done } = theirs?;
    claims.join(&mut all.by, by);
    all.done.append(&mut done)?;
    Ok(all)
}

// A claimant for each worker except the first.
fn other_claimants(
    alloc: Global,
    claims: &Claims,
    first: &mut Claimant,
    workers: u32,
) -> Result<Vec<Claimant>, AllocError>
    requires some { 1 ≤ workers }
    requires at_most { workers ≤ 16 }
    requires fresh { IsFresh claims.now first.old }
    requires leads { Leads 0 0 first.old }
    ensures many { IfOk result (λ v. vec_len v + 1 ≡ workers) }
    ensures each { IfOk result (λ v. All (IsFresh claims.now) v.items) }
    ensures fresh { IfOk result (λ _. IsFresh claims.now first.new) }
    ensures leads { IfOk result (λ v. Leads (vec_len v) 0 first.new) }
{
    let mut others = Vec::with_capacity(alloc, workers as usize - 1)?;
    for _ in 1..workers {
        others.push(claims.split(first)?)?;
    }
    Ok(others)
}

/// The results of all pieces in the order of their numbers, run by 1 to 16 workers, of which the calling thread is one.
/// No more workers start than there are pieces; if a thread cannot be started, there is one worker less. All threads
/// are joined before the call returns. `AllocError` if a piece returns it, or an allocation failed.
pub fn run_with<R: Threads + Sync, W: Work + Sync, G: Gate + Sync>(
    rt: &R,
    alloc: Global,
    workers: u32,
    work: &W,
    gate: &G,
) -> Result<Vec<W::Out>, AllocError>
where
    W::Out: Send + Drop,
    requires some { 1 ≤ workers }
    requires at_most { workers ≤ 16 }
    ensures { IfOk result (λ v. IsResultList (W.relates work.now) (W.count work.now) v.items) }
{
    let pieces = work.pieces();
    gate.expect(pieces);
    let (claims, mut first) = Claims::new(alloc, pieces)?;
    let workers = workers.min(pieces.max(1));
    let others = other_claimants(alloc, &claims, &mut first, workers)?;
    let WorkerResult { by, done } = run_claimants(rt, alloc, &claims, work, gate, first, others)?;
    claims.close(by);
    in_order(alloc, work, done)
}
