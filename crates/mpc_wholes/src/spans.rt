//! Where the numerators of a row aren't 0.

ghost use Rattle.std.specs.Prelude.{◌≤◌, IfOk};
ghost use Rattle.mpc_wholes.specs.Spans.{IsSpanOf, AreSpansOf};

use crate::Wholes;
use std::alloc::{AllocError, Global};

/// The places of a row from `first` on and before `end`: outside of them its numerators are 0.
#[derive(Clone, Copy, Drop)]
pub struct Span {
    pub first: usize,
    pub end: usize,
}

/// The span of the first numerators.
pub fn span_of(numbers: &Wholes, count: usize) -> Span
    requires { count ≤ 6 }
    ensures { IsSpanOf numbers.now.numerators count result }
{
    let mut first = 0;
    let mut end = 0;
    for k in 0..count {
        if numbers.numerators[k] != 0 {
            if end == 0 {
                first = k;
            }
            end = k + 1;
        }
    }
    Span { first, end }
}

/// The spans of rows.
pub fn spans_of(alloc: Global, rows: &[Wholes], count: usize) -> Result<Vec<Span>, AllocError>
    requires { count ≤ 6 }
    ensures { IfOk result (λ spans. AreSpansOf rows.now count spans.items) }
{
    let mut spans = Vec::with_capacity(alloc, rows.len())?;
    for index in 0..rows.len() {
        spans.push(span_of(&rows[index], count))?;
    }
    Ok(spans)
}
