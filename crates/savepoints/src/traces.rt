//! What is kept of each object while scopes are in progress.

ghost use Rattle.std.specs.Prelude.{◌≡◌, ◌<◌, ◌++◌, ℕ, length, take, map, OnOk, OnErr, vec_len};
ghost use Rattle.savepoints.specs.Scopes as spec;

use std::alloc::AllocError;

/// In how deep a scope an object was touched, 0 where it was touched in none, and whether a load made it since the
/// transaction began.
#[derive(Clone, Copy)]
pub struct Trace {
    pub depth: u32,
    pub loaded: bool,
}

/// An object that was touched in no scope.
fn no_trace() -> Trace
    ensures { result ≡ spec.no_trace }
{
    Trace {
        depth: 0,
        loaded: false,
    }
}

/// The trace of the object at a place.
pub(crate) fn trace_of(traces: &[Trace], place: usize) -> Trace
    ensures { result ≡ spec.trace_in traces.now place }
{
    match traces.get(place) {
        Some(trace) => *trace,
        None => no_trace(),
    }
}

/// There are traces up to a place. The only refusal is out of memory, and it changes nothing.
pub(crate) fn pad(traces: &mut Vec<Trace>, place: u32) -> Result<(), AllocError>
    ensures ok { OnOk result (traces.new.items ≡ spec.padded_traces traces.old.items place) }
    ensures err { OnErr result (traces.new.items ≡ traces.old.items) }
{
    let before = traces.len();
    if let Err(refusal) = grow(traces, place) {
        traces.truncate(before);
        return Err(refusal);
    }
    Ok(())
}

#[tactic(auto, using(crate::proofs::TraceLemmas::grows))]
/// There are traces up to a place. The only refusal is out of memory.
fn grow(traces: &mut Vec<Trace>, place: u32) -> Result<(), AllocError>
    ensures ok { OnOk result (traces.new.items ≡ spec.padded_traces traces.old.items place) }
    ensures kept { take (length traces.old.items) traces.new.items ≡ traces.old.items }
{
    let missing = (place as usize + 1).saturating_sub(traces.len());
    for _added in 0..missing {
        traces.push(no_trace())?;
    }
    Ok(())
}

/// What is left of a trace where so many scopes are left.
fn outward(depth: u32, trace: Trace) -> Trace
    ensures { result ≡ spec.outward depth trace }
{
    if depth == 0 {
        return no_trace();
    }
    Trace {
        depth: trace.depth.min(depth),
        loaded: trace.loaded,
    }
}

/// Each trace becomes what is left of it where so many scopes are left.
pub(crate) fn pass_outward(traces: &mut Vec<Trace>, depth: u32)
    ensures { traces.new.items ≡ map (spec.outward depth) traces.old.items }
{
    for place in 0..traces.len() {
        traces[place] = outward(depth, traces[place]);
    }
}
