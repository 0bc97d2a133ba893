//! Patterns of `like`.

ghost use Rattle.std.specs.Prelude.{◌≡◌, ℕ, ◌+◌, ◌<◌, List, [], ◌∷◌, length, IfOk};
ghost use Rattle.sql_semantics.specs.Texts as spec;
ghost use Rattle.query_steps.specs.Ends.{AreEnds, next_end as spec_next_end};

use std::alloc::{AllocError, Global};

#[tactic(auto, unfolding(sql_semantics::specs::Texts::like))]
/// Whether the text fits the pattern: `%` stands for any characters, `_` for one, and the case of ASCII letters is ignored.
pub(crate) fn like(alloc: Global, text: &str, pattern: &str) -> Result<bool, AllocError>
    ensures { IfOk result (λ b. b ≡ spec.like text.now pattern.now) }
{
    let text = caseless(alloc, text)?;
    let pattern = caseless(alloc, pattern)?;
    fits(alloc, &pattern, &text)
}

fn caseless(alloc: Global, text: &str) -> Result<Vec<u32>, AllocError>
    ensures { IfOk result (λ v. v.items ≡ spec.caseless text.now) }
{
    text.chars()
        .map(|c| c.to_ascii_lowercase() as u32)
        .collect(alloc)
}

// For each end of the text, the empty one first, whether it fits the pattern from a place on; the place goes from the end to the start.
fn fits(alloc: Global, pattern: &[u32], text: &[u32]) -> Result<bool, AllocError>
    ensures { IfOk result (λ b. b ≡ spec.fits pattern.now text.now) }
{
    let mut ends = at_end(alloc, text)?;
    let mut at = pattern.len();
    while at > 0 {
        at -= 1;
        ends = before(alloc, pattern[at], text, &ends)?;
    }
    Ok(ends[text.len()])
}

#[tactic(auto, using(crate::proofs::Ends::ends_none, crate::proofs::Ends::ends_none_more))]
fn at_end(alloc: Global, text: &[u32]) -> Result<Vec<bool>, AllocError>
    ensures { IfOk result (λ v. AreEnds [] text.now v.items) }
{
    let mut ends = Vec::with_capacity(alloc, text.len() + 1)?;
    ends.push(true)?;
    for _ in 0..text.len() {
        ends.push(false)?;
    }
    Ok(ends)
}

#[tactic(auto, using(crate::proofs::Ends::ends_first, crate::proofs::Ends::ends_more))]
fn before(alloc: Global, wanted: u32, text: &[u32], ends: &[bool]) -> Result<Vec<bool>, AllocError>
    requires { length ends.now ≡ length text.now + 1 }
    ensures { IfOk result (λ v. (later : List ℕ) → AreEnds later text.now ends.now
        → AreEnds (wanted ∷ later) text.now v.items) }
{
    let mut more = Vec::with_capacity(alloc, ends.len())?;
    more.push(wanted == '%' as u32 && ends[0])?;
    for i in 0..text.len() {
        more.push(next_end(wanted, text, ends, &more, i))?;
    }
    Ok(more)
}

fn next_end(wanted: u32, text: &[u32], ends: &[bool], more: &[bool], i: usize) -> bool
    requires within { i < length text.now }
    requires ends { length ends.now ≡ length text.now + 1 }
    requires more { length more.now ≡ i + 1 }
    ensures { result ≡ spec_next_end wanted text.now ends.now more.now i }
{
    if wanted == '%' as u32 {
        ends[i + 1] || more[i]
    } else {
        stands_for(wanted, text[text.len() - 1 - i]) && ends[i]
    }
}

fn stands_for(wanted: u32, c: u32) -> bool
    ensures { result ≡ spec.stands_for wanted c }
{
    wanted == '_' as u32 || wanted == c
}
