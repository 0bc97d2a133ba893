//! The arena of objects.

ghost use Rattle.std.specs.Prelude.{◌≡◌, ◌==◌, ◌<◌, ◌≤◌, ◌≢◌, ◌+◌, [], List, None, Some, length, true, false, IfOk, OnOk, OnErr, Err, IfSome, is_some, ◌++◌, ◌∷◌};
ghost use Rattle.std.specs.List.{list_any, position, zip};
ghost use Rattle.base_core.specs.Answers.{Takes};
ghost use Rattle.base_core.specs.declared.ids.ClassId.{ClassId};
ghost use Rattle.base_core.specs.declared.refusal.Refusal.TheVariants.{Memory};
ghost use Rattle.base_core.specs.declared.value.Value.{Value};
ghost use Rattle.schema_core.specs.WellFormed.{is_key, is_row};
ghost use Rattle.schema_core.specs.Refusals.{kind_fault};
ghost use Rattle.class_mapping.specs.Mapped.{IsAttribute, IsClass, Mapped, attribute_of, attributes_of, is_key_attribute, root_of, root_spec};
ghost use Rattle.class_mapping.specs.PlainClass.{IsPlainClass};
ghost use Rattle.object_arena.specs.declared.object.State.TheVariants.{Persistent};
ghost use Rattle.object_arena.specs.Graph.{IsCell, IsLink, IsObject, cell_at, either_fault, empty_graph, expired_object, fresh_object, has_identity, is_persistent, key_fault, make, object_at, object_limit, put_back_object, root_at, row_of, set_cell, value_read, value_fault, with_cell, with_fresh, with_link, with_marks, with_object, with_state, with_value};
ghost use Rattle.object_arena.specs.Every.{classes_of};
ghost use Rattle.object_arena.specs.Identity.{IsFree, IsGraph, IsOne, find_identity, has_key, holds, is_identified, is_other, is_taken, register, with_identity};
ghost use Rattle.object_arena.specs.Index.{is_holder};
ghost use Rattle.object_arena.specs.Fit.{IsFit, Keeps, KeepsWith, ObjectFits, cell_fits, identity_fits, key_fits, link_fits, links_fit, relation_of};

use crate::index::IdentityIndex;
use crate::{Cell, CellRead, Link, Object, State, parts};
use base_core::{AttrNo, ClassId, Key, Kind, LimitKind, ObjId, Refusal, RelNo, RequestKind, Value};
use class_mapping::Mapping;
use schema_core::{kind_of_value, same_kind};
use std::alloc::{AllocError, Global};
use std::cmp::Ordering;
use std::marker::Model;

/// How many objects there are at most.
const OBJECT_LIMIT: usize = 1_000_000;

/// Objects, numbered from 1 in the order in which they are made, and the identity map.
///
/// Objects that fit a mapping go on to fit it, whatever call is made; only a cell or a key that is put in must fit.
pub struct Arena {
    alloc: Global,
    objects: Vec<Object>,
    /// The root class of each object's class.
    roots: Vec<ClassId>,
    index: IdentityIndex,
}

impl Drop for Arena {
    fn drop(self) {
        let Arena {
            alloc: _,
            objects: _,
            roots: _,
            index: _,
        } = self;
    }
}

impl Model for Arena {
    ghost use Rattle.object_arena.specs.Graph.{Graph};
    ghost use Rattle.object_arena.specs.Index.{IsIndexed};

    ghost Value = { Graph };

    ghost view = { λ a. record { objects = a.objects.items; roots = a.roots.items } };

    ghost invariant = { λ a. IsIndexed a.objects.items a.roots.items a.index.entries.maps.items a.index.complete };
}

impl Arena {
    #[tactic(auto, using(crate::proofs::FitLemmas::fit_empty, crate::proofs::IndexLemmas::indexed_empty))]
    /// No objects.
    pub fn new(alloc: Global) -> Arena
        ensures empty { result ≡ empty_graph }
        ensures fits { (mapped : Mapped) → IsFit mapped result }
    {
        Arena {
            alloc,
            objects: Vec::new(alloc),
            roots: Vec::new(alloc),
            index: IdentityIndex::new(alloc),
        }
    }

    /// How many objects have been made.
    pub fn count(&self) -> u32
        ensures count { result ≡ length self.now.objects }
        ensures few { length self.now.objects ≤ object_limit }
        ensures one { IsOne self.now.objects self.now.roots }
        ensures graph { IsGraph self.now.objects self.now.roots }
    {
        self.objects.len() as u32
    }

    #[tactic(auto, using(crate::proofs::FitLemmas::fit_at))]
    /// An object's record. Where the objects fit a mapping it has one cell for each attribute of its class, and, where
    /// each class is a plain root, they make a row of its table.
    pub fn object(&self, object: ObjId) -> &Object
        requires { IsObject self.now object }
        ensures is { result.now ≡ object_at self.now object }
        ensures identified { is_identified result.now ≡ true }
        ensures fits { (mapped : Mapped) → IsFit mapped self.now → ObjectFits mapped result.now }
        ensures links { (mapped : Mapped) → IsFit mapped self.now
            → links_fit mapped self.now.roots result.now ≡ true }
        ensures cells { (mapped : Mapped) → IsFit mapped self.now
            → length result.now.cells ≡ length (attributes_of mapped result.now.class) }
        ensures row { (mapped : Mapped) → IsFit mapped self.now
            → IsPlainClass mapped result.now.class
            → is_row (root_spec mapped result.now.class) (row_of result.now) ≡ true }
    {
        &self.objects[object.0 as usize - 1]
    }

    /// An object's class. Where each class is a plain root, its keys are those of its table.
    pub fn class_of(&self, object: ObjId) -> ClassId
        requires { IsObject self.now object }
        ensures class { result ≡ (object_at self.now object).class }
        ensures root { (mapped : Mapped) → IsFit mapped self.now
            → root_at self.now object ≡ root_of mapped result }
        ensures keys { (mapped : Mapped) (key : List Value) → IsPlainClass mapped result
            → key_fits mapped result key ≡ is_key (root_spec mapped result) key }
    {
        self.objects[object.0 as usize - 1].class
    }

    /// An object's state.
    pub fn state_of(&self, object: ObjId) -> State
        requires { IsObject self.now object }
        ensures { result ≡ (object_at self.now object).state }
    {
        self.objects[object.0 as usize - 1].state
    }

    /// What a cell of an object holds.
    pub fn get_cell(&self, object: ObjId, attr: AttrNo) -> CellRead<'_>
        requires object { IsObject self.now object }
        requires attr { IsCell self.now object attr }
        ensures { value_read result ≡ (cell_at self.now object attr).value }
    {
        read_of(
            self.objects[object.0 as usize - 1]
                .cells
                .at(attr.0 as usize),
        )
    }

    /// The persistent object that has a key under a root class, if there is one. An ordered map has it, so that the time
    /// grows as the logarithm of the number of objects. Takes no memory.
    pub fn find_identity(&self, root: ClassId, key: &Key) -> Option<ObjId>
        ensures found { result ≡ find_identity self.now root key.now }
        ensures made { IfSome result (λ object. IsObject self.now object) }
        ensures holds { IfSome result
            (λ object. holds root key.now (object_at self.now object, root_at self.now object)
            ≡ true) }
        ensures identified { IfSome result
            (λ object. is_some (object_at self.now object).identity ≡ true) }
    {
        if !self.index.complete {
            return self.scan(root, key);
        }
        match self.index.find(root, key) {
            None => None,
            Some(object) => {
                if self.is_holder(object, root, key) {
                    Some(object)
                } else {
                    None
                }
            }
        }
    }

    /// The persistent object that has a key under a root class, if there is one. All objects are gone over.
    fn scan(&self, root: ClassId, key: &Key) -> Option<ObjId>
        ensures found { result ≡ find_identity self.now root key.now }
        ensures made { IfSome result (λ object. IsObject self.now object) }
        ensures holds { IfSome result
            (λ object. holds root key.now (object_at self.now object, root_at self.now object)
            ≡ true) }
        ensures identified { IfSome result
            (λ object. is_some (object_at self.now object).identity ≡ true) }
    {
        match place_of(self.objects.as_slice(), self.roots.as_slice(), root, key) {
            Some(place) => Some(ObjId(place as u32 + 1)),
            None => None,
        }
    }

    /// Whether an object has been made and is persistent under a root class and a key.
    fn is_holder(&self, object: ObjId, root: ClassId, key: &Key) -> bool
        ensures { result ≡ is_holder self.now root key.now object }
    {
        if object.0 == 0 || object.0 as usize > self.objects.len() {
            return false;
        }
        let place = object.0 as usize - 1;
        holds(root, key, &self.objects[place], self.roots[place])
    }

    /// Whether another persistent object has the key that an object is to have.
    pub fn is_taken(&self, object: ObjId, key: &Key) -> bool
        requires { IsObject self.now object }
        ensures { result ≡ is_taken self.now object key.now }
    {
        is_other(object, self.find_identity(self.root_at(object), key))
    }

    /// The root class of an object's class.
    pub fn root_at(&self, object: ObjId) -> ClassId
        requires { IsObject self.now object }
        ensures { result ≡ root_at self.now object }
    {
        self.roots[object.0 as usize - 1]
    }

    #[tactic(auto, unfolding(crate::specs::Graph::make))]
    /// Makes a transient object of a class, by the next number: null cells, unset links, no identity.
    ///
    /// # Errors
    /// `LimitReached(Objects)` where there are 1,000,000 objects; `Memory` where there are fewer. A refusal changes nothing.
    pub fn make(&mut self, mapping: &Mapping, class: ClassId) -> Result<ObjId, Refusal>
        requires declared { IsClass mapping.now class }
        ensures step { Takes (λ object. object)
            (make self.old mapping.now class) self.old result self.new }
        ensures made { OnOk result (self.new ≡ with_fresh self.old mapping.now class) }
        ensures room { OnOk result (length self.old.objects < object_limit) }
        ensures cause { result ≡ Err Memory → length self.old.objects < object_limit }
        ensures exists { IfOk result (λ object. IsObject self.new object) }
        ensures fresh { IfOk result
            (λ object. object_at self.new object ≡ fresh_object mapping.now class) }
        ensures fits { IsFit mapping.now self.old → IsFit mapping.now self.new }
    {
        if self.objects.len() >= OBJECT_LIMIT {
            return Err(Refusal::LimitReached(LimitKind::Objects));
        }
        self.add_fresh(mapping, class)?;
        Ok(ObjId(self.count()))
    }

    /// One more transient object of a class.
    fn add_fresh(&mut self, mapping: &Mapping, class: ClassId) -> Result<(), AllocError>
        requires declared { IsClass mapping.now class }
        requires room { length self.old.objects < object_limit }
        ensures ok { OnOk result (self.new ≡ with_fresh self.old mapping.now class) }
        ensures err { OnErr result (self.new ≡ self.old) }
    {
        let object = parts::fresh_object(self.alloc, mapping, class)?;
        let root = mapping.root_of(class);
        push_both(&mut self.objects, &mut self.roots, object, root)
    }

    #[tactic(auto, using(crate::proofs::FitLemmas::fit_class, crate::proofs::FitLemmas::fit_cells), unfolding(crate::specs::Graph::set_cell))]
    /// Sets a cell of an object. Its base, what was last read or written, stays.
    ///
    /// # Errors
    /// `TypeMismatch` where the value is not NULL and of another kind than the attribute, then
    /// `InvalidRequestError(KeyChange)` where the object has an identity and the attribute is a column of the primary
    /// key. A refusal changes nothing.
    pub fn set_cell(
        &mut self,
        mapping: &Mapping,
        object: ObjId,
        attr: AttrNo,
        value: Value,
    ) -> Result<(), Refusal>
        requires fit { IsFit mapping.now self.old }
        requires object { IsObject self.old object }
        requires attr { IsAttribute mapping.now (object_at self.old object).class attr }
        ensures step { Takes (λ _. tt)
            (set_cell self.old mapping.now object attr value) self.old result self.new }
        ensures set { OnOk result (self.new ≡ with_value self.old object attr value) }
        ensures fits { IsFit mapping.now self.new }
        ensures classes { classes_of self.new ≡ classes_of self.old }
    {
        match cell_fault(mapping, self.object(object), attr, &value) {
            Some(fault) => Err(fault),
            None => {
                self.put_value(object, attr, value);
                Ok(())
            }
        }
    }

    /// A cell holds a value; its base stays.
    fn put_value(&mut self, object: ObjId, attr: AttrNo, value: Value)
        requires object { IsObject self.old object }
        requires attr { IsCell self.old object attr }
        ensures { self.new ≡ with_value self.old object attr value }
    {
        parts::put_value(&mut self.objects[object.0 as usize - 1], attr, value);
    }

    #[tactic(auto, unfolding(crate::specs::Identity::register))]
    /// Makes an object persistent under a key.
    ///
    /// # Errors
    /// `InvalidRequestError(IdentityConflict)` where another persistent object has this key under the same root class.
    /// A refusal changes nothing.
    pub fn register(&mut self, object: ObjId, key: Key) -> Result<(), Refusal>
        requires { IsObject self.old object }
        ensures step { Takes (λ _. tt) (register self.old object key) self.old result self.new }
        ensures registered { OnOk result (self.new ≡ with_identity self.old object key) }
        ensures taken { OnErr result (is_taken self.old object key ≡ true) }
        ensures keeps { KeepsWith
            (λ mapped. key_fits mapped (object_at self.old object).class key ≡ true)
            self.old self.new }
    {
        if self.is_taken(object, &key) {
            return Err(Refusal::InvalidRequestError(RequestKind::IdentityConflict));
        }
        self.settle_identity(object, key);
        Ok(())
    }

    /// Makes an object persistent under a key that no other persistent object has.
    fn settle_identity(&mut self, object: ObjId, key: Key)
        requires object { IsObject self.old object }
        requires free { is_taken self.old object key ≡ false }
        ensures { self.new ≡ with_identity self.old object key }
    {
        let place = object.0 as usize - 1;
        self.index.enter(self.roots[place], &key, object);
        let target = &mut self.objects[place];
        target.state = State::Persistent;
        target.identity = Some(key);
    }

    /// Drops what is known of an object's cells and links, so that they are to be read again, and its orphan mark.
    pub fn expire(&mut self, object: ObjId)
        requires object { IsObject self.old object }
        requires persistent { (object_at self.old object).state ≡ Persistent }
        ensures expired { self.new
            ≡ with_object self.old object (expired_object (object_at self.old object)) }
        ensures keeps { Keeps self.old self.new }
    {
        self.write_expired(object);
    }

    /// Drops what is known of an object.
    fn write_expired(&mut self, object: ObjId)
        requires { IsObject self.old object }
        ensures { self.new ≡ with_object self.old object (expired_object (object_at self.old object)) }
    {
        parts::expire(self.alloc, &mut self.objects[object.0 as usize - 1]);
    }

    /// Replaces a cell of an object.
    pub fn put_cell(&mut self, object: ObjId, attr: AttrNo, cell: Cell)
        requires object { IsObject self.old object }
        requires attr { IsCell self.old object attr }
        ensures put { self.new ≡ with_cell self.old object attr cell }
        ensures keeps { KeepsWith
            (λ mapped. cell_fits
            (attribute_of mapped (object_at self.old object).class attr) cell ≡ true)
            self.old self.new }
    {
        self.write_cell(object, attr, cell);
    }

    /// Replaces a cell of an object.
    fn write_cell(&mut self, object: ObjId, attr: AttrNo, cell: Cell)
        requires object { IsObject self.old object }
        requires attr { IsCell self.old object attr }
        ensures { self.new ≡ with_cell self.old object attr cell }
    {
        let target = &mut self.objects[object.0 as usize - 1];
        let _old = target.cells.replace(attr.0 as usize, cell);
    }

    /// Replaces a link of an object.
    pub fn put_link(&mut self, object: ObjId, relation: RelNo, link: Link)
        requires object { IsObject self.old object }
        requires relation { IsLink self.old object relation }
        ensures put { self.new ≡ with_link self.old object relation link }
        ensures keeps { KeepsWith
            (λ mapped. link_fits mapped self.old.roots
            (relation_of mapped (object_at self.old object).class relation) link ≡ true)
            self.old self.new }
    {
        self.write_link(object, relation, link);
    }

    /// Replaces a link of an object.
    fn write_link(&mut self, object: ObjId, relation: RelNo, link: Link)
        requires object { IsObject self.old object }
        requires relation { IsLink self.old object relation }
        ensures { self.new ≡ with_link self.old object relation link }
    {
        let target = &mut self.objects[object.0 as usize - 1];
        let _old = target.links.replace(relation.0 as usize, link);
    }

    /// Replaces an object's add number and marks.
    pub fn put_marks(&mut self, object: ObjId, added: u64, marked: bool, orphan: bool)
        requires { IsObject self.old object }
        ensures put { self.new ≡ with_marks self.old object added marked orphan }
        ensures keeps { Keeps self.old self.new }
    {
        self.write_marks(object, added, marked, orphan);
    }

    /// Replaces an object's add number and marks.
    fn write_marks(&mut self, object: ObjId, added: u64, marked: bool, orphan: bool)
        requires { IsObject self.old object }
        ensures { self.new ≡ with_marks self.old object added marked orphan }
    {
        let target = &mut self.objects[object.0 as usize - 1];
        target.added = added;
        target.marked = marked;
        target.orphan = orphan;
    }

    /// Replaces an object's state; a transient or pending object has no identity.
    pub fn put_state(&mut self, object: ObjId, state: State)
        requires object { IsObject self.old object }
        requires state { is_persistent state ≡ false }
        requires identity { has_identity state ≡ true
            → is_some (object_at self.old object).identity ≡ true }
        ensures put { self.new ≡ with_state self.old object state }
        ensures frees { (root : ClassId) (key : List Value)
            → find_identity self.old root key ≡ Some object
            → find_identity self.new root key ≡ None }
        ensures keeps { Keeps self.old self.new }
    {
        self.write_state(object, state);
    }

    /// Replaces an object's state.
    fn write_state(&mut self, object: ObjId, state: State)
        requires object { IsObject self.old object }
        requires state { is_persistent state ≡ false }
        requires identity { has_identity state ≡ true
            → is_some (object_at self.old object).identity ≡ true }
        ensures state { self.new ≡ with_state self.old object state }
        ensures frees { (root : ClassId) (key : List Value)
            → find_identity self.old root key ≡ Some object
            → find_identity self.new root key ≡ None }
    {
        parts::put_state(&mut self.objects[object.0 as usize - 1], state);
    }

    /// Puts an object back into a state and an identity that it had, without a delete mark. The expired cells of a
    /// transient object become NULL, its unloaded links become unset or have the members added meanwhile, a link to an
    /// object is changed, and collections have no base.
    pub fn put_back(&mut self, object: ObjId, state: State, identity: Option<Key>)
        requires object { IsObject self.old object }
        requires identity { has_identity state ≡ is_some identity }
        requires one { is_persistent state ≡ true → IsFree self.old object identity }
        ensures back { self.new
            ≡ with_object self.old object
            (put_back_object (object_at self.old object) state identity) }
        ensures keeps { KeepsWith
            (λ mapped. identity_fits mapped (object_at self.old object).class identity ≡ true)
            self.old self.new }
    {
        self.write_back(object, state, identity);
    }

    /// Puts an object back.
    fn write_back(&mut self, object: ObjId, state: State, identity: Option<Key>)
        requires object { IsObject self.old object }
        requires identity { has_identity state ≡ is_some identity }
        requires one { is_persistent state ≡ true → IsFree self.old object identity }
        ensures { self.new ≡ with_object self.old object
            (put_back_object (object_at self.old object) state identity) }
    {
        let place = object.0 as usize - 1;
        self.index
            .go_back(self.roots[place], state, &identity, object);
        parts::put_back(self.alloc, &mut self.objects[place], state, identity);
    }

    /// Puts an object into a state under the identity that it has, as [`Arena::put_back`] does. Takes no memory.
    pub fn stand(&mut self, object: ObjId, state: State)
        requires object { IsObject self.old object }
        requires identity { has_identity state ≡ is_some (object_at self.old object).identity }
        requires one { is_persistent state ≡ true
            → IsFree self.old object (object_at self.old object).identity }
        ensures stands { self.new ≡ with_object self.old object
            (put_back_object (object_at self.old object) state
            (object_at self.old object).identity) }
        ensures keeps { Keeps self.old self.new }
    {
        self.write_standing(object, state);
    }

    /// Puts an object into a state under the identity that it has.
    fn write_standing(&mut self, object: ObjId, state: State)
        requires object { IsObject self.old object }
        requires identity { has_identity state ≡ is_some (object_at self.old object).identity }
        requires one { is_persistent state ≡ true
            → IsFree self.old object (object_at self.old object).identity }
        ensures { self.new ≡ with_object self.old object
            (put_back_object (object_at self.old object) state
            (object_at self.old object).identity) }
    {
        let place = object.0 as usize - 1;
        let target = &mut self.objects[place];
        self.index
            .go_back(self.roots[place], state, &target.identity, object);
        parts::stand(self.alloc, target, state);
    }
}

/// What is read of a cell.
fn read_of(cell: &Cell) -> CellRead<'_>
    ensures { value_read result ≡ cell.now.value }
{
    match &cell.value {
        Some(value) => CellRead::Held(value),
        None => CellRead::Expired,
    }
}

/// Whether a key is that of an identity.
fn has_key(key: &Key, identity: &Option<Key>) -> bool
    ensures { result ≡ has_key key.now identity.now }
{
    match identity {
        Some(own) => own.cmp(key) == Ordering::Equal,
        None => false,
    }
}

/// Whether a state is that of a persistent object.
fn is_persistent(state: State) -> bool
    ensures { result ≡ is_persistent state }
{
    match state {
        State::Persistent => true,
        State::Transient | State::Pending | State::Deleted | State::Detached => false,
    }
}

/// Whether an object, of a class under the root, is persistent under the root and key.
fn holds(root: ClassId, key: &Key, object: &Object, own: ClassId) -> bool
    ensures { result ≡ holds root key.now (object.now, own) }
{
    is_persistent(object.state) && own.0 == root.0 && has_key(key, &object.identity)
}

/// The place of the persistent object that has a key under a root class.
fn place_of(objects: &[Object], roots: &[ClassId], root: ClassId, key: &Key) -> Option<usize>
    ensures place { result ≡ position (holds root key.now) (zip objects.now roots.now) }
    ensures inside { IfSome result (λ place. place < length objects.now) }
{
    objects
        .iter()
        .zip(roots.iter())
        .position(|(object, own)| holds(root, key, object, *own))
}

/// Whether another object was found.
fn is_other(object: ObjId, found: Option<ObjId>) -> bool
    ensures { result ≡ is_other object found }
{
    match found {
        Some(found) => found.0 != object.0,
        None => false,
    }
}

/// Adds an object and its root class, or neither.
fn push_both(
    objects: &mut Vec<Object>,
    roots: &mut Vec<ClassId>,
    object: Object,
    root: ClassId,
) -> Result<(), AllocError>
    ensures ok { OnOk result ((objects.new.items ≡ objects.old.items ++ object ∷ [])
        × (roots.new.items ≡ roots.old.items ++ root ∷ [])) }
    ensures err { OnErr result
        ((objects.new.items ≡ objects.old.items) × (roots.new.items ≡ roots.old.items)) }
{
    roots.reserve(1)?;
    objects.push(object)?;
    match roots.push(root) {
        Ok(()) => Ok(()),
        Err(_full) => {
            let _object = objects.pop();
            Err(AllocError)
        }
    }
}

/// Why a value of a kind is not taken where a kind is wanted.
fn kind_fault(wanted: Kind, found: Option<Kind>) -> Option<Refusal>
    ensures { result ≡ kind_fault wanted found }
{
    match found {
        None => None,
        Some(found) => {
            if same_kind(wanted, found) {
                None
            } else {
                Some(Refusal::TypeMismatch(wanted, found))
            }
        }
    }
}

/// Whether an attribute is among others.
fn is_among(attributes: &[AttrNo], attr: AttrNo) -> bool
    ensures { result ≡ list_any (λ key. key.0 == attr.0) attributes.now }
{
    let Some((first, attributes)) = attributes.split_first() else {
        return false;
    };
    first.0 == attr.0 || is_among(attributes, attr)
}

/// Whether an attribute is a column of the key.
fn is_key_attribute(mapping: &Mapping, class: ClassId, attr: AttrNo) -> bool
    requires declared { IsClass mapping.now class }
    ensures { result ≡ is_key_attribute mapping.now class attr }
{
    is_among(mapping.key_attributes(class), attr)
}

/// Why the cell of an object's key is not set.
fn key_fault(mapping: &Mapping, object: &Object, attr: AttrNo) -> Option<Refusal>
    requires declared { IsClass mapping.now object.now.class }
    ensures { result ≡ key_fault mapping.now object.now attr }
{
    if object.identity.is_some() && is_key_attribute(mapping, object.class, attr) {
        Some(Refusal::InvalidRequestError(RequestKind::KeyChange))
    } else {
        None
    }
}

/// Why a value is not taken for a cell.
fn cell_fault(mapping: &Mapping, object: &Object, attr: AttrNo, value: &Value) -> Option<Refusal>
    requires declared { IsClass mapping.now object.now.class }
    requires attr { IsAttribute mapping.now object.now.class attr }
    ensures { result ≡ either_fault (value_fault mapping.now object.now attr value.now)
        (key_fault mapping.now object.now attr) }
{
    let wanted = mapping.attributes(object.class)[attr.0 as usize].kind;
    match kind_fault(wanted, kind_of_value(value)) {
        Some(fault) => Some(fault),
        None => key_fault(mapping, object, attr),
    }
}
