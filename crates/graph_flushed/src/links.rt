//! The links of objects after success.

ghost use Rattle.std.specs.Prelude.{◌≡◌, map, IfOk, IsTrue};
ghost use Rattle.std.specs.List.{enumerate_from};
ghost use Rattle.graph_flushed.specs.Flushed as spec;

use base_core::{Copied, ListOf, ObjId, RelNo};
use class_layouts::number_of;
use object_arena::Link;
use object_parts::kept_link;
use object_rows::{Prepared, is_cleared};
use std::alloc::{AllocError, Global};

/// A link of a prepared graph, where it may be one that becomes none.
fn prepared_link(is_cleared: bool, link: &Link) -> Result<Link, AllocError>
    ensures { IfOk result (λ prepared. prepared ≡ spec.prepared_link is_cleared link.now) }
{
    if is_cleared {
        return Ok(Link::One {
            end: None,
            changed: true,
        });
    }
    Ok(link.copied()?)
}

/// The links of an object in a prepared graph.
#[tactic(auto, using(class_layouts::proofs::Steps::steps))]
pub fn prepared_links(
    alloc: Global,
    prepared: &Prepared,
    object: ObjId,
    links: &[Link],
) -> Result<ListOf<Link>, AllocError>
    ensures { IfOk result
        (λ all. all ≡ spec.prepared_links prepared.now object links.now) }
{
    let mut all = ListOf::new(alloc);
    for (number, link) in links.iter().enumerate() {
        let is_none = is_cleared(prepared, object, RelNo(number_of(number)?));
        all.push(prepared_link(is_none, link)?)?;
    }
    Ok(all)
}

/// Whether a link has neither flags nor kept changes. A collection that was read is not told.
fn is_kept(link: &Link) -> bool
    ensures { IsTrue result → spec.kept_link link.now ≡ link.now }
{
    match link {
        Link::Unloaded { added, removed } => added.is_empty() && removed.is_empty(),
        Link::One { changed, .. } => !*changed,
        Link::Unset | Link::Many { .. } => false,
    }
}

/// Whether a link of an object that was written stays as it is.
fn keeps_link(is_cleared: bool, link: &Link) -> bool
    ensures { IsTrue result
        → spec.kept_link (spec.prepared_link is_cleared link.now) ≡ link.now }
{
    !is_cleared && is_kept(link)
}

/// Whether the links of an object that was written stay as they are. Where memory runs out it takes none.
pub fn keeps_links(prepared: &Prepared, object: ObjId, links: &[Link]) -> Result<bool, AllocError>
    ensures { IfOk result (λ kept. IsTrue kept
        → spec.kept_links prepared.now object links.now ≡ links.now) }
{
    for (number, link) in links.iter().enumerate() {
        let is_none = is_cleared(prepared, object, RelNo(number_of(number)?));
        if !keeps_link(is_none, link) {
            return Ok(false);
        }
    }
    Ok(true)
}

/// These links without flags and kept changes.
#[tactic(auto, using(class_layouts::proofs::Steps::steps))]
fn without_flags(alloc: Global, links: &[Link]) -> Result<ListOf<Link>, AllocError>
    ensures { IfOk result (λ all. all ≡ map spec.kept_link links.now) }
{
    let mut all = ListOf::new(alloc);
    for link in links {
        all.push(kept_link(alloc, link)?)?;
    }
    Ok(all)
}

/// The links of an object that was written.
pub fn kept_links(
    alloc: Global,
    prepared: &Prepared,
    object: ObjId,
    links: &[Link],
) -> Result<ListOf<Link>, AllocError>
    ensures { IfOk result (λ all. all ≡ spec.kept_links prepared.now object links.now) }
{
    let all = prepared_links(alloc, prepared, object, links)?;
    without_flags(alloc, all.as_slice())
}
