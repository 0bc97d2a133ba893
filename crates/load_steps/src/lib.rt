//! What loads leave of the objects, whatever they answer, by one induction over their steps. Each of these functions does nothing when
//! it runs.
#![tactic(auto)]

ghost use Rattle.load_steps.specs.Laws.{LoadsFillFromRows, LoadsKeepArenas, LoadsNoteWhatTheyFill, LoadsOnlyRead};

/// A load leaves objects that fit the mapping, of which no two persistent ones have one root class and one key, and the store as it was,
/// where the rows that its selects answer are rows of the mapping.
pub fn loads_keep_arenas()
    ensures { LoadsKeepArenas }
{}

/// Each object that a load makes or fills is named in its notes; every other one is as it was.
pub fn loads_note_what_they_fill()
    ensures { LoadsNoteWhatTheyFill }
{}

/// Each cell that a load fills has the base that stands in the row under its object's key, where the rows that its selects answer are
/// those of the tables.
pub fn loads_fill_from_rows()
    ensures { LoadsFillFromRows }
{}

/// Of the objects that there were a load fills at most expired cells, from their rows, and unloaded links: all else of them is as it was.
/// All others it made behind them, persistent, and of these it read at most that.
pub fn loads_only_read()
    ensures { LoadsOnlyRead }
{}
