//! Files without bytes, which get their first page in one write.

ghost use Rattle.std.specs.Prelude.{◌≡◌, IfOk, IsTrue};
ghost use Rattle.sqlite_pool.specs.Header.{first_page, first_page_byte};

use crate::ending::Ending;
use sqlite_disk::{Disk, Files};
use sqlite_std_file::{OpenError, Unknown, open};
use std::alloc::{AllocError, Global};
use std::fs;

/// The first page of a database without tables, up to its zeros: the header of a file with one page and a log, and that of a table's
/// empty leaf.
const HEADERS: [u8; 108] = [
    83, 81, 76, 105, 116, 101, 32, 102, 111, 114, 109, 97, 116, 32, 51, 0, 16, 0, 2, 2, 0, 64, 32,
    32, 0, 0, 0, 0, 0, 0, 0, 1, 0, 0, 0, 0, 0, 0, 0, 0, 0, 0, 0, 1, 0, 0, 0, 4, 0, 0, 0, 0, 0, 0,
    0, 0, 0, 0, 0, 1, 0, 0, 0, 0, 0, 0, 0, 0, 0, 0, 0, 0, 0, 0, 0, 0, 0, 0, 0, 0, 0, 0, 0, 0, 0, 0,
    0, 0, 0, 0, 0, 0, 0, 0, 0, 0, 0, 46, 118, 136, 13, 0, 0, 0, 0, 16, 0, 0,
];

/// The byte at a place of the first page.
#[tactic(auto, using(crate::proofs::Pages::bytes))]
fn byte_at(place: usize) -> u8
    ensures { result ≡ first_page_byte 4096 place }
{
    if place < 108 {
        return HEADERS[place];
    }
    0
}

/// The first page of a database without tables, as the kit's SQLite makes it.
#[tactic(auto, using(crate::proofs::Pages::byte_more))]
fn new_page(alloc: Global) -> Result<Vec<u8>, AllocError>
    ensures { IfOk result (λ page. page.items ≡ first_page 4096) }
{
    let mut page = Vec::with_capacity(alloc, 4096)?;
    for place in 0..4096 {
        page.push(byte_at(place))?;
    }
    Ok(page)
}

/// Writes the first page of a file without bytes, in one write; one that fails is taken back. A log beside it is of an earlier file of
/// the name, and loses its bytes before.
fn begin<D: Disk>(alloc: Global, files: &mut Files<D>) -> Result<(), Ending>
    requires log { IsTrue (D.Disk.is_usable files.old.log) }
    requires db { IsTrue (D.Disk.is_usable files.old.db) }
{
    if files.db.len()? > 0 {
        return Ok(());
    }
    files.log.set_len(0)?;
    files.log.sync()?;
    let page = new_page(alloc)?;
    match files.db.write_at(0, page.as_slice()) {
        Ok(()) => Ok(()),
        Err(error) => {
            let _answer = files.db.set_len(0);
            Err(Ending::from(error))
        }
    }
}

/// Opens the file of this name and its log, which are made where they are not there, and begins a database in the file.
fn open_and_begin(rt: &HostRuntime, name: &str) -> Result<(), Ending> {
    match open(rt, name, Unknown) {
        Ok(mut files) => begin(rt.alloc(), &mut files),
        Err(OpenError::Io(error)) => Err(Ending::from(error)),
        Err(OpenError::OutOfMemory) => Err(Ending::Memory),
        Err(_) => Err(Ending::Fault),
    }
}

/// Whether something with bytes has the name.
fn has_bytes(rt: &HostRuntime, name: &str) -> bool {
    match fs::metadata(rt, name) {
        Ok(found) => found.len() > 0,
        Err(_) => false,
    }
}

/// Begins a database in the file of this name, where it is not there or has no bytes, and lets it go. Wherever the program is killed,
/// the file has no bytes or its whole first page, and SQLite takes both. A name that it takes for no file is left to it.
pub(crate) fn begin_file(rt: &HostRuntime, name: &str) -> Result<(), Ending> {
    if name == ":memory:" || name.starts_with("file:") || has_bytes(rt, name) {
        return Ok(());
    }
    open_and_begin(rt, name)
}
