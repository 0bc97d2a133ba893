//! Plans of small changes, worked by hand.

ghost use Rattle.std.specs.Prelude.{◌≡◌, [], ◌∷◌, Some, Ok, Err};
ghost use Rattle.base_core.specs.declared.value.Value.TheVariants as value;
ghost use Rattle.schema_core.specs.declared.changes.RowCell.TheVariants.{Given};
ghost use Rattle.flush_plan.specs.Planning.{plan};
ghost use Rattle.flush_plan.specs.Flushing.{send_all};
ghost use Rattle.flush_plan.specs.Stating.{stated_tables};
ghost use Rattle.session_laws.specs.Plans.Laws.{before};
ghost use Rattle.session_laws.specs.Plans.Worked.{both_gone, both_keys, both_new, both_rows, by_value, change_node, changed_node, changed_nodes, cycle_of, entry_by_value, entry_then_widget, gone_cycle, gone_node, gone_nodes, int, keyed_nodes, late, late_next, late_plan, new_cycle, new_nodes, next_is, no_rows, cell_of_null, put_nodes, removes_cleared, remove_node, schema, to_new, two_tables};

/// Plans of a widget and an entry, each with a link to the other, and the tables that they leave.
pub fn worked_plans()
    // Two rows that refer to each other are a cycle, unless one of the links is written after all rows.
    ensures cycle { plan schema (both_new []) ≡ Err new_cycle }
    ensures late_link { plan schema (both_new late) ≡ Ok late_plan }
    // A row whose values equal the known key of a new one comes after it.
    ensures known_key { plan schema by_value ≡ Ok entry_by_value }
    // Of rows that wait for none the first of the changes comes first.
    ensures tie { plan schema entry_then_widget ≡ Ok two_tables }
    // The link that is written last is cleared first.
    ensures cleared { plan schema (both_gone late) ≡ Ok removes_cleared }
    ensures gone_cycle { plan schema (both_gone []) ≡ Err gone_cycle }
    // What is sent leaves what is stated.
    ensures sent { send_all schema (both_new late) (Ok (before no_rows)) late_plan
        ≡ Ok (record { tables = both_rows (int 1); keys = both_keys }) }
    ensures states { stated_tables schema no_rows (both_new late) (0 ∷ 1 ∷ []) ≡ Some (both_rows (int 1)) }
    ensures states_gone { stated_tables schema (both_rows (int 1)) (both_gone late) [] ≡ Some no_rows }
{}

/// Cycles of new nodes, told from the least row left: the way from it to the least row for which a row waits, from the first
/// row that repeats on.
pub fn worked_cycles()
    ensures itself { plan schema (new_nodes (to_new 0 ∷ []) []) ≡ Err (cycle_of (0 ∷ [])) }
    ensures late { plan schema (new_nodes (to_new 0 ∷ []) late_next)
        ≡ Ok (put_nodes (0 ∷ []) ∷ change_node (to_new 0) (to_new 0) ∷ []) }
    ensures three { plan schema (new_nodes (to_new 1 ∷ to_new 2 ∷ to_new 0 ∷ []) [])
        ≡ Err (cycle_of (0 ∷ 1 ∷ 2 ∷ [])) }
    // The least row is in no cycle, but waits for one.
    ensures beyond { plan schema (new_nodes (to_new 1 ∷ to_new 2 ∷ to_new 1 ∷ []) [])
        ≡ Err (cycle_of (1 ∷ 2 ∷ [])) }
    // Of two cycles that of the least row is told.
    ensures least { plan schema (new_nodes (to_new 2 ∷ to_new 1 ∷ to_new 0 ∷ []) [])
        ≡ Err (cycle_of (0 ∷ 2 ∷ [])) }
{}

/// Runs of new nodes.
pub fn worked_runs()
    ensures together { plan schema (new_nodes (cell_of_null ∷ cell_of_null ∷ cell_of_null ∷ []) [])
        ≡ Ok (put_nodes (0 ∷ 1 ∷ 2 ∷ []) ∷ []) }
    // A row stands in no run with a row to which it refers.
    ensures reference { plan schema (new_nodes (to_new 1 ∷ cell_of_null ∷ []) [])
        ≡ Ok (put_nodes (1 ∷ []) ∷ put_nodes (0 ∷ []) ∷ []) }
    ensures third { plan schema (new_nodes (cell_of_null ∷ to_new 0 ∷ cell_of_null ∷ []) [])
        ≡ Ok (put_nodes (0 ∷ []) ∷ put_nodes (1 ∷ 2 ∷ []) ∷ []) }
    // The key is given in all rows of a run, or in none.
    ensures keys { plan schema (keyed_nodes (cell_of_null ∷ Given (int 5) ∷ Given (int 6) ∷ []))
        ≡ Ok (put_nodes (0 ∷ []) ∷ put_nodes (1 ∷ 2 ∷ []) ∷ []) }
{}

/// Changed and deleted nodes.
pub fn worked_old()
    // A row is deleted once no row refers to it.
    ensures referred { plan schema (gone_nodes (gone_node 1 value.Null ∷ gone_node 2 (int 1) ∷ []))
        ≡ Ok (remove_node 2 ∷ remove_node 1 ∷ []) }
    ensures referring { plan schema (gone_nodes (gone_node 2 value.Null ∷ gone_node 1 (int 2) ∷ []))
        ≡ Ok (remove_node 1 ∷ remove_node 2 ∷ []) }
    // Changed rows go by key, and one without cells is not sent.
    ensures changed { plan schema (changed_nodes (changed_node 3 (next_is cell_of_null)
        ∷ changed_node 2 [] ∷ changed_node 1 (next_is cell_of_null) ∷ []) [])
        ≡ Ok (change_node (Given (int 1)) cell_of_null ∷ change_node (Given (int 3)) cell_of_null ∷ []) }
    ensures changed_late { plan schema (changed_nodes (changed_node 3 (next_is cell_of_null)
        ∷ changed_node 1 (next_is cell_of_null) ∷ []) late_next)
        ≡ Ok (change_node (Given (int 1)) cell_of_null ∷ change_node (Given (int 3)) cell_of_null ∷ []) }
{}
