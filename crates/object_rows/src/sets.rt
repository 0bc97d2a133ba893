//! Objects and links in lists, each found without a search of the list.

ghost use Rattle.std.specs.Prelude.{◌≡◌, ◌||◌, ◌&&◌, ◌==◌, ◌++◌, ◌∷◌, [], ℕ, nat_eq, IfOk, OnOk};
ghost use Rattle.std.specs.BTreeSet.{contains};
ghost use Rattle.std.specs.Ordering.{nat_cmp};
ghost use Rattle.object_arena.specs.Graph.{is_among};
ghost use Rattle.object_rows.specs.Numbers.{AreNumbers, has_link, link_cmp};

use base_core::{ListOf, ObjId, ObjList, RelNo};
use std::alloc::{AllocError, Global};
use std::collections::BTreeSet;
use std::marker::Model;

/// Objects in a list, of which each is found by its number. Contracts see the list.
#[derive(Drop)]
pub struct ObjIndex {
    objects: ObjList,
    numbers: BTreeSet<u32>,
}

impl Model for ObjIndex {
    ghost use Rattle.std.specs.Prelude.{List};
    ghost use Rattle.base_core.specs.declared.ids.ObjId.{ObjId};
    ghost use Rattle.object_rows.specs.Numbers.{AreNumbers};

    ghost Value = { List ObjId };

    ghost view = { λ set. set.objects };

    ghost invariant = { λ set. AreNumbers set.objects set.numbers };
}

/// A number is one of a set.
fn enter(set: &mut BTreeSet<u32>, number: u32) -> Result<(), AllocError>
    ensures { OnOk result ((other : ℕ) → contains nat_cmp set.new other
        ≡ (nat_eq number other || contains nat_cmp set.old other)) }
{
    set.insert(number)?;
    Ok(())
}

/// The numbers of objects, among which one is found without a search of the list.
pub fn numbers_of(alloc: Global, objects: &ObjList) -> Result<BTreeSet<u32>, AllocError>
    ensures { IfOk result (λ numbers. AreNumbers objects.now numbers) }
{
    let mut numbers = BTreeSet::new(alloc);
    for object in objects.as_slice() {
        enter(&mut numbers, object.0)?;
    }
    Ok(numbers)
}

impl ObjIndex {
    /// These objects.
    pub fn of(alloc: Global, objects: ObjList) -> Result<ObjIndex, AllocError>
        ensures { IfOk result (λ set. set ≡ objects) }
    {
        let numbers = numbers_of(alloc, &objects)?;
        Ok(ObjIndex { objects, numbers })
    }

    /// No objects.
    pub fn none(alloc: Global) -> ObjIndex
        ensures { result ≡ [] }
    {
        ObjIndex {
            objects: ListOf::new(alloc),
            numbers: BTreeSet::new(alloc),
        }
    }

    /// Whether an object is among these.
    pub fn has(&self, object: ObjId) -> bool
        ensures { result ≡ is_among self.now object }
    {
        self.numbers.contains(&object.0)
    }

    /// The objects, lent.
    pub fn as_slice(&self) -> &[ObjId]
        ensures { result.now ≡ self.now }
    {
        self.objects.as_slice()
    }
}

/// Links in a list, of which each is found by its object and place. Contracts see the list.
#[derive(Drop)]
pub struct LinkIndex {
    links: ListOf<(ObjId, RelNo)>,
    places: BTreeSet<(u32, u32)>,
}

impl Model for LinkIndex {
    ghost use Rattle.std.specs.Prelude.{List};
    ghost use Rattle.base_core.specs.declared.ids.ObjId.{ObjId};
    ghost use Rattle.base_core.specs.declared.ids.RelNo.{RelNo};
    ghost use Rattle.object_rows.specs.Numbers.{AreLinks};

    ghost Value = { List (ObjId × RelNo) };

    ghost view = { λ set. set.links };

    ghost invariant = { λ set. AreLinks set.links set.places };
}

/// The object and place of a link go into a set.
fn enter_link(
    places: &mut BTreeSet<(u32, u32)>,
    object: ObjId,
    relation: RelNo,
) -> Result<(), AllocError>
    ensures { OnOk result ((other : ObjId) (place : RelNo)
        → contains link_cmp places.new (other.0, place.0)
        ≡ ((object.0 == other.0 && relation.0 == place.0)
        || contains link_cmp places.old (other.0, place.0))) }
{
    places.insert((object.0, relation.0))?;
    Ok(())
}

/// The objects and places of links.
fn places_of(alloc: Global, links: &[(ObjId, RelNo)]) -> Result<BTreeSet<(u32, u32)>, AllocError>
    ensures { IfOk result ((λ places. (object : ObjId) (relation : RelNo)
        → contains link_cmp places (object.0, relation.0) ≡ has_link links.now object relation)) }
{
    let mut places = BTreeSet::new(alloc);
    for link in links {
        enter_link(&mut places, link.0, link.1)?;
    }
    Ok(places)
}

impl LinkIndex {
    /// These links.
    pub fn of(alloc: Global, links: ListOf<(ObjId, RelNo)>) -> Result<LinkIndex, AllocError>
        ensures { IfOk result (λ set. set ≡ links) }
    {
        let places = places_of(alloc, links.as_slice())?;
        Ok(LinkIndex { links, places })
    }

    /// No links.
    pub fn none(alloc: Global) -> LinkIndex
        ensures { result ≡ [] }
    {
        LinkIndex {
            links: ListOf::new(alloc),
            places: BTreeSet::new(alloc),
        }
    }

    /// Whether an object's link is among these.
    pub fn has(&self, object: ObjId, relation: RelNo) -> bool
        ensures { result ≡ has_link self.now object relation }
    {
        self.places.contains(&(object.0, relation.0))
    }

    /// The links, lent.
    pub fn as_slice(&self) -> &[(ObjId, RelNo)]
        ensures { result.now ≡ self.now }
    {
        self.links.as_slice()
    }
}
