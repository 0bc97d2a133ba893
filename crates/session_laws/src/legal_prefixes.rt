//! The prefixes of a plan.

ghost use Rattle.std.specs.Prelude.{◌≡◌, [], ◌∷◌, Ok};
ghost use Rattle.flush_plan.specs.Planning.{plan};
ghost use Rattle.flush_plan.specs.Flushing.{Sofar, send_all};
ghost use Rattle.session_laws.specs.Plans.Laws.{AcceptedIsLegal, AcceptedIsStated, AreDeclared, AreWellFormed, InsertPrefixesAreLegal, InsertsLeaveKeys, IsComplete, PrefixesAreLegal, RowsWithoutCellsStateNothing, WholeIsStated, before};
ghost use Rattle.session_laws.specs.Plans.Worked.{by_value, mixed_changes, mixed_keys, mixed_old, mixed_plan, mixed_rows, no_rows, schema, value_rows};

/// Under completeness's premises every prefix of the INSERTs is accepted and leaves legal tables, and all of them leave the
/// keys that are told beforehand.
pub fn inserts_are_legal()
    ensures prefixes { InsertPrefixesAreLegal }
    ensures whole { InsertsLeaveKeys }
{}

/// Under completeness's premises every prefix of a plan is accepted and leaves legal tables, and the whole leaves the stated
/// ones.
pub fn plans_are_legal()
    ensures prefixes { PrefixesAreLegal }
    ensures whole { WholeIsStated }
{}

/// Where a plan is accepted from legal tables, it leaves the stated tables, and legal ones where its statements fit the
/// schema. A changed row of which no cell is written stays as it was, also where its table is not created: nothing is sent of
/// it, and where it has a table the stated tables are the same with it and without it.
pub fn accepted_plans_are_stated()
    ensures stated { AcceptedIsStated }
    ensures legal { AcceptedIsLegal }
    ensures same { RowsWithoutCellsStateNothing }
{}

/// The premises can be met: by an entry and the widget that its values name, both new; and by a new, a changed and a deleted
/// row at once, each with a foreign key that is written after all rows. The plan of these is accepted and leaves what is
/// stated.
pub fn premises_are_met()
    ensures new { (placed : Sofar)
        × IsComplete schema no_rows by_value (1 ∷ 0 ∷ []) placed value_rows }
    ensures late { (placed : Sofar)
        × IsComplete schema mixed_old mixed_changes (0 ∷ []) placed mixed_rows }
    ensures late_plan { plan schema mixed_changes ≡ Ok mixed_plan }
    ensures declared { AreDeclared schema mixed_changes }
    ensures formed { AreWellFormed schema mixed_changes (before mixed_old) mixed_plan }
    ensures sent { send_all schema mixed_changes (Ok (before mixed_old)) mixed_plan
        ≡ Ok (record { tables = mixed_rows; keys = mixed_keys }) }
{}
