// Spans of beats.
ghost use Rattle.std.specs.Prelude.{◌≡◌, ◌++◌, IfOk, OnOk};
ghost use Rattle.lens_terms.specs.Spans as spec;

use crate::stretch::Stretch;
use kube_base::NoMemory;
use std::alloc::Global;

/// The beats from one on up to before another.
#[derive(Clone, Copy)]
pub struct Span {
    pub from: u32,
    pub until: u32,
}

/// The spans in which nobody acts, by the stretches of a trace that ends before the beat `stop`, in the order in which they begin.
pub fn leaderless(alloc: Global, stop: u32, found: &[Stretch<&[u8]>]) -> Result<Vec<Span>, NoMemory>
    ensures { IfOk result (λ spans. spans.items ≡ spec.leaderless 0 stop found.now) }
{
    let mut spans = Vec::new(alloc);
    let mut since = 0;
    for stretch in found {
        add(&mut spans, since, stretch.from)?;
        since = since.max(stretch.until);
    }
    add(&mut spans, since, stop)?;
    Ok(spans)
}

/// Adds the span between two beats, if there is a beat in it.
fn add(spans: &mut Vec<Span>, from: u32, until: u32) -> Result<(), NoMemory>
    ensures { OnOk result (spans.new.items ≡ spans.old.items ++ spec.span from until) }
{
    if from < until {
        spans.push(Span { from, until })?;
    }
    Ok(())
}
