//! Statements on rows, worked by hand.

ghost use Rattle.std.specs.Prelude.{◌≡◌, [], ◌∷◌, codes, Ok, Err};
ghost use Rattle.base_core.specs.declared.value.Value.TheVariants as value;
ghost use Rattle.schema_core.specs.declared.statement.Violation.TheVariants as violation;
ghost use Rattle.schema_core.specs.declared.statement.RowStmt.TheVariants as statement;
ghost use Rattle.table_laws.specs.Worked.{Gives, both, insert_node, insert_nodes, insert_place, int, node_entry, node, nodes_id, place_entry, tables_at_last_key, delete_node, point_node};

/// INSERTs on two small tables.
pub fn worked_inserts()
    // A NULL in a column that is NOT NULL is told before a key that is spent.
    ensures not_null_first { Gives tables_at_last_key
        (statement.Insert nodes_id ((value.Null ∷ value.Null ∷ value.Null ∷ []) ∷ []))
        (Err violation.NotNull) }
    ensures keys_spent { Gives tables_at_last_key (insert_node value.Null (codes "a") value.Null)
        (Err violation.KeysSpent) }
    // The first generated key is 1, and the next is above the greatest: no gap is used again.
    ensures first_key { Gives (both [] []) (insert_node value.Null (codes "a") value.Null)
        (Ok ((int 1 ∷ []) ∷ [], both (node_entry 1 (codes "a") value.Null ∷ []) [])) }
    ensures next_key { Gives (both
        (node_entry 2 (codes "a") value.Null ∷ node_entry 5 (codes "b") value.Null ∷ []) [])
        (insert_node value.Null (codes "c") value.Null)
        (Ok (
          (int 6 ∷ []) ∷ [],
          both
              (node_entry 2 (codes "a") value.Null ∷ node_entry 5 (codes "b") value.Null
              ∷ node_entry 6 (codes "c") value.Null ∷ []) [],
        )) }
    ensures primary_key { Gives (both (node_entry 1 (codes "a") value.Null ∷ []) [])
        (insert_node (int 1) (codes "b") value.Null) (Err violation.PrimaryKey) }
    // A unique value with a NULL in it never collides.
    ensures null_in_unique { Gives (both (node_entry 1 (codes "a") value.Null ∷ []) [])
        (insert_node (int 2) (codes "a") value.Null)
        (Ok (
          (int 2 ∷ []) ∷ [],
          both
              (node_entry 1 (codes "a") value.Null ∷ node_entry 2 (codes "a") value.Null ∷ []) [],
        )) }
    ensures unique { Gives (both (node_entry 1 (codes "a") (int 1) ∷ []) [])
        (insert_node (int 2) (codes "a") (int 1)) (Err violation.Unique) }
    // A row may refer to itself: the tables that the statement leaves are judged.
    ensures self_reference { Gives (both [] []) (insert_node (int 3) (codes "a") (int 3))
        (Ok ((int 3 ∷ []) ∷ [], both (node_entry 3 (codes "a") (int 3) ∷ []) [])) }
    ensures foreign { Gives (both [] []) (insert_node (int 3) (codes "a") (int 4))
        (Err violation.Foreign) }
    ensures no_table { Gives ((nodes_id, []) ∷ []) (insert_place 1 (codes "l") 1)
        (Err (violation.NoTable (record { 0 = 1 }))) }
    // A key of several columns is compared column by column.
    ensures composite { Gives (both (node_entry 1 (codes "a") value.Null ∷ [])
        (place_entry 1 (codes "r") 1 ∷ [])) (insert_place 1 (codes "l") 1)
        (Ok (
          (place_entry 1 (codes "l") 1).0
              ∷ [],
          both (node_entry 1 (codes "a") value.Null ∷ [])
              (place_entry 1 (codes "l") 1 ∷ place_entry 1 (codes "r") 1 ∷ []),
        )) }
    ensures composite_key { Gives
        (both (node_entry 1 (codes "a") value.Null ∷ []) (place_entry 1 (codes "r") 1 ∷ []))
        (insert_place 1 (codes "r") 1) (Err violation.PrimaryKey) }
{}

/// INSERTs of several rows.
pub fn worked_many()
    // Each key is above those of the old rows and the rows before it.
    ensures next_keys { Gives (both (node_entry 5 (codes "a") value.Null ∷ []) [])
        (insert_nodes (node value.Null (codes "b") value.Null
        ∷ node value.Null (codes "c") value.Null ∷ []))
        (Ok (
          (int 6 ∷ []) ∷ (int 7 ∷ [])
              ∷ [],
          both (node_entry 5 (codes "a") value.Null ∷ node_entry 6 (codes "b") value.Null
              ∷ node_entry 7 (codes "c") value.Null ∷ []) [],
        )) }
    ensures spent_later { Gives (both (node_entry 9223372036854775806 (codes "z") value.Null ∷ []) [])
        (insert_nodes (node value.Null (codes "b") value.Null
        ∷ node value.Null (codes "c") value.Null ∷ [])) (Err violation.KeysSpent) }
    // The keys are answered in the order of the rows, not of the keys.
    ensures rows_order { Gives (both [] [])
        (insert_nodes (node (int 8) (codes "b") value.Null
        ∷ node (int 7) (codes "c") value.Null ∷ []))
        (Ok (
          (int 8 ∷ []) ∷ (int 7 ∷ [])
              ∷ [],
          both (node_entry 7 (codes "c") value.Null ∷ node_entry 8 (codes "b") value.Null ∷ []) [],
        )) }
    ensures key_twice { Gives (both [] [])
        (insert_nodes (node (int 7) (codes "b") value.Null ∷ node (int 7) (codes "c") value.Null
        ∷ [])) (Err violation.PrimaryKey) }
    // A NULL in the second row is told before a unique value of the first.
    ensures not_null_first { Gives (both (node_entry 1 (codes "a") (int 1) ∷ []) [])
        (insert_nodes (node (int 2) (codes "a") (int 1) ∷ (int 3 ∷ value.Null ∷ int 1 ∷ []) ∷ []))
        (Err violation.NotNull) }
    ensures unique_twice { Gives (both (node_entry 1 (codes "a") value.Null ∷ []) [])
        (insert_nodes (node (int 2) (codes "b") (int 1) ∷ node (int 3) (codes "b") (int 1) ∷ []))
        (Err violation.Unique) }
    // A row may refer to a later row of the statement.
    ensures later_row { Gives (both [] [])
        (insert_nodes (node (int 1) (codes "a") (int 2) ∷ node (int 2) (codes "b") value.Null ∷ []))
        (Ok (
          (int 1 ∷ []) ∷ (int 2 ∷ [])
              ∷ [],
          both (node_entry 1 (codes "a") (int 2) ∷ node_entry 2 (codes "b") value.Null ∷ []) [],
        )) }
{}

/// UPDATEs and DELETEs on two small tables.
pub fn worked_others()
    // A DELETE of an absent key is accepted, and one of a row to which another refers is not.
    ensures absent { Gives (both [] []) (delete_node 7) (Ok ((int 7 ∷ []) ∷ [], both [] [])) }
    ensures deleted { Gives (both (node_entry 1 (codes "a") (int 1) ∷ []) []) (delete_node 1)
        (Ok ((int 1 ∷ []) ∷ [], both [] [])) }
    ensures referred { Gives (both
        (node_entry 1 (codes "a") value.Null ∷ node_entry 2 (codes "b") (int 1) ∷ []) []) (delete_node 1)
        (Err violation.Foreign) }
    ensures referred_elsewhere { Gives
        (both (node_entry 1 (codes "a") value.Null ∷ []) (place_entry 1 (codes "r") 1 ∷ [])) (delete_node 1)
        (Err violation.Foreign) }
    ensures missing { Gives (both [] []) (point_node 7 value.Null) (Err violation.Missing) }
    ensures changed { Gives (both (node_entry 1 (codes "a") value.Null ∷ []) []) (point_node 1 (int 1))
        (Ok ((int 1 ∷ []) ∷ [], both (node_entry 1 (codes "a") (int 1) ∷ []) [])) }
    ensures dangling { Gives (both (node_entry 1 (codes "a") value.Null ∷ []) []) (point_node 1 (int 2))
        (Err violation.Foreign) }
    ensures update_unique { Gives
        (both (node_entry 1 (codes "a") (int 1) ∷ node_entry 2 (codes "a") (int 2) ∷ []) [])
        (point_node 2 (int 1)) (Err violation.Unique) }
    ensures update_not_null { Gives (both (node_entry 1 (codes "a") value.Null ∷ []) [])
        (statement.Update nodes_id (int 1 ∷ []) ((record { 0 = 1 }, value.Null) ∷ []))
        (Err violation.NotNull) }
{}
