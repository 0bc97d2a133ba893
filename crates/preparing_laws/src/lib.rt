//! What the reading before a flush leaves of the objects, whatever it answers. The law is the contract of a function that does nothing.
#![tactic(auto)]

ghost use Rattle.preparing_laws.specs.Done.{ReadingsPrepare};
ghost use Rattle.preparing_laws.specs.Laws.{ReadingsOnlyReread};

/// The reading of what is to be known before objects are deleted leaves objects that fit the mapping, of which no two persistent ones
/// have one root class and one key, and the store as it was. Of the objects that there were at most expired cells and those of which the
/// rows' values were not known are expired or filled, from their rows, and unloaded links loaded; all others it made behind them. Each
/// object that it made or that differs is named in its notes.
pub fn readings_only_reread()
    ensures { ReadingsOnlyReread }
{}

/// Where the reading answers, all is known that is to be known before objects are deleted: the cells of each that is to be deleted, and
/// its links along which more is deleted, or lost. It is never ended by the number of its turns: there are as many as there may be
/// objects, each makes one more object read, and one that is read stays so.
pub fn readings_prepare()
    ensures { ReadingsPrepare }
{}
