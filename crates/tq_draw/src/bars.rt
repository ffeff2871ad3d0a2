// Bars, which show when a row is valid.

ghost use Rattle.std.specs.Prelude.{◌≡◌, ◌++◌, ◌<◌, OnOk, nat_lt};
ghost use Rattle.tq_draw.specs.Bars.{arrow_of, bar_byte, bar_of, lead_of};
ghost use Rattle.tq_draw.specs.Scales.{IsScale};

use crate::scale::Scale;
use std::alloc::AllocError;
use tq_base::{FOREVER, Period};

// Whether the period and the cell have an instant in common, as a byte.
fn bar_byte(scale: &Scale, period: &Period, cell: usize) -> u8
    requires scale { IsScale scale.now }
    requires cell { cell < scale.now.cells }
    ensures { result ≡ bar_byte scale.now period.now cell }
{
    let begins_before = period.start.number() < scale.edge(cell + 1);
    if begins_before && scale.edge(cell) < period.end.number() {
        b'#'
    } else {
        b'.'
    }
}

/// One byte for each cell of the scale.
pub(crate) fn push_bar(text: &mut Vec<u8>, scale: &Scale, period: &Period) -> Result<(), AllocError>
    requires { IsScale scale.now }
    ensures { OnOk result (text.new.items ≡ text.old.items ++ bar_of scale.now period.now) }
{
    'cells: for cell in 0..scale.cells {
        text.push(bar_byte(scale, period, cell))?;
    }
    Ok(())
}

/// Whether the period begins before the scale.
pub(crate) fn begins_before(scale: &Scale, period: &Period) -> bool
    ensures { result ≡ nat_lt period.now.start scale.now.first }
{
    period.start.number() < scale.first
}

/// An arrow to the left if the period begins before the scale.
pub(crate) fn push_lead(
    text: &mut Vec<u8>,
    scale: &Scale,
    period: &Period,
) -> Result<(), AllocError>
    ensures { OnOk result (text.new.items ≡ text.old.items ++ lead_of scale.now period.now) }
{
    if begins_before(scale, period) {
        text.push(b'<')?;
    }
    Ok(())
}

/// An arrow to the right if the period ends after the scale, or never.
pub(crate) fn push_arrow(
    text: &mut Vec<u8>,
    scale: &Scale,
    period: &Period,
) -> Result<(), AllocError>
    ensures { OnOk result (text.new.items ≡ text.old.items ++ arrow_of scale.now period.now) }
{
    if period.end.number() == FOREVER || scale.last < period.end.number() {
        text.push(b'>')?;
    }
    Ok(())
}
