// Periods that tile a plan's window, so that several workers can execute it.

ghost use Rattle.std.specs.Prelude.{◌≡◌, ◌≤◌, ◌<◌, ◌*◌, ◌↔◌, All, Contains, IfOk, IfSome, IsSome, IsTrue, ℕ, length};
ghost use Rattle.tq_plan.specs.Cuts.{LiesInside, Tile};

use crate::plans::Plan;
use std::alloc::{AllocError, Global};
use tq_base::{Bound, Instant, Period};

fn lies_inside(period: &Period, bound: Bound) -> bool
    ensures { IsTrue result ↔ LiesInside period.now bound }
{
    period.start.number() < bound.number() && bound.number() < period.end.number()
}

// The bounds that lie strictly inside the period.
fn bounds_inside(alloc: Global, period: &Period, bounds: &[Bound]) -> Result<Vec<Bound>, AllocError>
    ensures inside { IfOk result (λ inside. All (LiesInside period.now) inside.items) }
    ensures some { (bound : ℕ) → Contains bounds.now bound → LiesInside period.now bound → IfOk result (λ inside. 0 < length inside.items) }
{
    let mut inside = Vec::new(alloc);
    'bounds: for bound in bounds {
        if lies_inside(period, *bound) {
            inside.push(*bound)?;
        }
    }
    Ok(inside)
}

// The bounds that lie strictly inside the period, in order.
fn sorted_inside(alloc: Global, period: &Period, bounds: &[Bound]) -> Result<Vec<Bound>, AllocError>
    ensures inside { IfOk result (λ inside. All (LiesInside period.now) inside.items) }
    ensures some { (bound : ℕ) → Contains bounds.now bound → LiesInside period.now bound → IfOk result (λ inside. 0 < length inside.items) }
{
    let mut inside = bounds_inside(alloc, period, bounds)?;
    inside.sort_unstable();
    Ok(inside)
}

// The most pieces for the workers: four each, so that no worker waits long for the last one.
fn max_pieces(workers: u32) -> u32
    requires some { 1 ≤ workers }
    requires at_most { workers ≤ 16 }
    ensures some { 1 ≤ result }
    ensures few { result ≤ 4 * workers }
    ensures several { 2 ≤ workers → 2 ≤ result }
{
    if workers > 1 { 4 * workers } else { 1 }
}

// The bound at which the piece begins, if all pieces have equally many bounds; `None` if there are no bounds.
fn bound_at(bounds: &[Bound], piece: u32, pieces: u32) -> Option<Bound>
    requires { piece < pieces }
    ensures some { 0 < length bounds.now → IsSome result }
    ensures bound { IfSome result (λ bound. Contains bounds.now bound) }
{
    let place = u128::from(piece) * bounds.len() as u128 / u128::from(pieces);
    bounds.get(place as usize).copied()
}

// The parts of the period before and after the bound; `None` unless the bound lies strictly inside.
fn split_at_bound(period: &Period, bound: Bound) -> Option<(Period, Period)>
    ensures some { LiesInside period.now bound → IsSome result }
    ensures parts { IfSome result (λ parts. (parts.0.start ≡ period.now.start) × (parts.0.end ≡ bound) × (parts.1.start ≡ bound) × (parts.1.end ≡ period.now.end)) }
{
    if bound.number() >= period.end.number() {
        return None;
    }
    let middle = Instant::new(bound.number())?;
    let first = Period::new(period.start, bound)?;
    let second = Period::new(middle, period.end)?;
    Some((first, second))
}

// The rest of a window, split at the bound where the piece begins; `None` unless that lies strictly inside.
fn cut_rest(bounds: &[Bound], rest: &Period, piece: u32, pieces: u32) -> Option<(Period, Period)>
    requires { piece < pieces }
    ensures some { All (LiesInside rest.now) bounds.now → 0 < length bounds.now → IsSome result }
    ensures parts { IfSome result (λ parts. (parts.0.start ≡ rest.now.start) × (parts.0.end ≡ parts.1.start) × (parts.1.end ≡ rest.now.end)) }
{
    split_at_bound(rest, bound_at(bounds, piece, pieces)?)
}

// The periods that tile the window if it is cut into `pieces` pieces of equally many bounds.
fn cut_window(
    alloc: Global,
    window: &Period,
    bounds: &[Bound],
    pieces: u32,
) -> Result<Vec<Period>, AllocError>
    requires some { 1 ≤ pieces }
    requires inside { All (LiesInside window.now) bounds.now }
    ensures tile { IfOk result (λ cuts. Tile window.now cuts.items) }
    ensures few { IfOk result (λ cuts. length cuts.items ≤ pieces) }
    ensures several { 2 ≤ pieces → 0 < length bounds.now → IfOk result (λ cuts. 2 ≤ length cuts.items) }
{
    let mut cuts = Vec::with_capacity(alloc, pieces as usize)?;
    let mut rest = *window;
    'pieces: for piece in 1..pieces {
        if let Some((part, later)) = cut_rest(bounds, &rest, piece, pieces) {
            cuts.push(part)?;
            rest = later;
        }
    }
    cuts.push(rest)?;
    Ok(cuts)
}

impl Plan {
    /// Periods in order that tile the window, for `workers` workers. There are at most four for each worker, and at
    /// least two for two or more workers if an edge lies strictly inside the window. Cuts are at edges, so that each
    /// period has about equally many. `AllocError` if an allocation failed.
    pub fn cuts(
        &self,
        alloc: Global,
        workers: u32,
        edges: &[Bound],
    ) -> Result<Vec<Period>, AllocError>
        requires { (1 ≤ workers) × (workers ≤ 16) }
        ensures tile { IfOk result (λ cuts. Tile self.now.window cuts.items) }
        ensures few { IfOk result (λ cuts. length cuts.items ≤ 4 * workers) }
        ensures several { (edge : ℕ) → Contains edges.now edge → LiesInside self.now.window edge → 2 ≤ workers → IfOk result (λ cuts. 2 ≤ length cuts.items) }
    {
        let bounds = sorted_inside(alloc, &self.window, edges)?;
        cut_window(alloc, &self.window, &bounds, max_pieces(workers))
    }
}
