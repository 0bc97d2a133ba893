//! Laws of what a flush changes, over every mapping, every graph and every preparation.
#![tactic(auto, using(crate::proofs::Projects::Rows::cells_in_order, crate::proofs::Projects::Rows::rows_whole, crate::proofs::Projects::Rows::bases_whole, crate::proofs::Projects::Rows::rows_keyed, crate::proofs::Projects::LateKeys::late_keys_fit, crate::proofs::Projects::Loose::parts_are_foreign, crate::proofs::Projects::Passing::keys_pass_once))]

ghost use Rattle.session_laws.specs.KnownCells.{FoundValuesAreKnown, KnownValuesAreFound};
ghost use Rattle.session_laws.specs.Projects.{ChangedCellsAreInOrder, GoneRowsAreWhole, KeyPartsAreForeign, LateKeysAreFit, NewRowsAreWhole, NewRowsHaveKeys, PassedKeysAreSwitched, SwitchesKeepRowsApart};

/// A changed row names columns of its table in order, each once, and none of the key.
pub fn changed_cells_are_in_order()
    ensures { ChangedCellsAreInOrder }
{}

/// A new row has a cell for each column of its table.
pub fn new_rows_are_whole()
    ensures { NewRowsAreWhole }
{}

/// A new row is of a declared table, which has a key, where the objects fit a configured mapping.
pub fn new_rows_have_keys()
    ensures { NewRowsHaveKeys }
{}

/// A part of a key stands in a new row only in a column of a foreign key, where the mapping is valid and the objects fit it.
pub fn key_parts_are_foreign()
    ensures { KeyPartsAreForeign }
{}

/// A deleted row has a value for each column of its table.
pub fn gone_rows_are_whole()
    ensures { GoneRowsAreWhole }
{}

/// Where no two deleted rows have one table and key, no new row that is not switched has the known key of a deleted row that is
/// not switched: a key that passes from row to row passes by a switch.
pub fn passed_keys_are_switched()
    ensures { PassedKeysAreSwitched }
{}

/// Where no two changed rows have one table and key, no two deleted ones, and no changed and deleted one, it is so behind the
/// switches too.
pub fn switches_keep_rows_apart()
    ensures { SwitchesKeepRowsApart }
{}

/// The foreign keys that are written after all rows are nullable, and have no column in common with a key, a unique constraint
/// or another foreign key, where the mapping is valid and only links of many-to-one say that theirs is.
pub fn late_keys_are_fit()
    ensures { LateKeysAreFit }
{}

/// What is found of a cell of a new row before keys are drawn is what is known of it: it is a value, or comes from a cell that is known
/// through the keys of new rows. A value that comes so is found where it comes through none of them twice.
#[tactic(auto, using(crate::proofs::Projects::KnownCells::found_known, crate::proofs::Projects::KnownCells::known_found))]
pub fn found_cells_are_known()
    ensures known { FoundValuesAreKnown }
    ensures found { KnownValuesAreFound }
{}
