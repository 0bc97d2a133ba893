//! What a flush of a prepared graph sends goes through: laws of the plan of what the graph changes.
#![tactic(auto, using(crate::proofs::Graphs::MappingFacts::once_law, crate::proofs::Graphs::MappingFacts::free_law, crate::proofs::Graphs::NewKinds::foreigns_of_one_kind, crate::proofs::Graphs::Prefixes::whole_stated, crate::proofs::Graphs::Prefixes::accepted_stated))]

ghost use Rattle.session_laws.specs.Graphs.{AcceptedFlushIsStated, ChangesAreProjected, DeletedAreAsRead, DiscriminatorsStandFree, FlushPrefixesAreLegal, ForeignKeysAreOfOneKind, TablesStandOnce, WholeFlushIsStated};

/// A class has no table twice, and the discriminator of a hierarchy is a column of no foreign key, in every mapping.
pub fn tables_and_discriminators()
    ensures once { TablesStandOnce }
    ensures free { DiscriminatorsStandFree }
{}

/// Each foreign key of a new row is given as values, or is the whole key of one new row of the table to which it refers, where
/// the mapping is configured and the objects fit.
pub fn foreign_keys_are_of_one_kind()
    ensures { ForeignKeysAreOfOneKind }
{}

/// All that a plan needs of changes holds of what a flush of a prepared graph changes.
///
/// What is asked of the graph, beside that it fits: two persistent objects have no row in common, and those that are to be
/// deleted stand there once, with their rows as they were read under their keys; no two pairs that are taken away have one key.
/// Of the mapping, beside that it is configured: only links of many-to-one are written late, as the language has it, and no class
/// has the table of a pair. Where the rows of objects that are to be deleted stand with the foreign keys that were read, so do all
/// deleted rows, and what is written late of them is what was read.
pub fn changes_are_projected()
    ensures projected { ChangesAreProjected }
    ensures read { DeletedAreAsRead }
{}

/// Where the tables that a flush states are legal, every prefix of its plan is accepted and leaves legal tables, and the whole
/// leaves the stated ones.
pub fn flush_prefixes_are_legal()
    ensures prefixes { FlushPrefixesAreLegal }
    ensures whole { WholeFlushIsStated }
{}

/// Where the plan of a flush is accepted, it leaves the stated tables, also where the rows of deleted objects held what no attribute
/// tells. A row of which no cell is written, as one in place of a deleted row that holds the same, stays as it was.
pub fn accepted_flushes_are_stated()
    ensures { AcceptedFlushIsStated }
{}
