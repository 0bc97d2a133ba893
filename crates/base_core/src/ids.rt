//! The numbers of tables, columns, classes, attributes, relationships and objects.

use crate::Copied;
use std::alloc::AllocError;

/// An object's number, from 1 in the order in which objects are made or loaded.
#[derive(Clone, Copy, PartialEq, Eq, PartialOrd, Ord)]
pub struct ObjId(pub u32);

/// A table's number, from 0 in the order of declaration.
#[derive(Clone, Copy, PartialEq, Eq, PartialOrd, Ord)]
pub struct TableId(pub u32);

/// A class's number, from 0 in the order of declaration.
#[derive(Clone, Copy, PartialEq, Eq, PartialOrd, Ord)]
pub struct ClassId(pub u32);

/// A column's place in its table.
#[derive(Clone, Copy, PartialEq, Eq, PartialOrd, Ord)]
pub struct ColumnNo(pub u32);

/// An attribute's place in its class.
#[derive(Clone, Copy, PartialEq, Eq, PartialOrd, Ord)]
pub struct AttrNo(pub u32);

/// A relationship's place in its class.
#[derive(Clone, Copy, PartialEq, Eq, PartialOrd, Ord)]
pub struct RelNo(pub u32);

impl Copied for ObjId {
    fn copied(&self) -> Result<ObjId, AllocError> {
        Ok(*self)
    }
}

impl Copied for TableId {
    fn copied(&self) -> Result<TableId, AllocError> {
        Ok(*self)
    }
}

impl Copied for ColumnNo {
    fn copied(&self) -> Result<ColumnNo, AllocError> {
        Ok(*self)
    }
}
