//! Queries without joined options. These functions do nothing when they run.

ghost use Rattle.std.specs.Prelude.{◌≡◌, []};
ghost use Rattle.expr_types.specs.declared.select.ObjectQuery.{ObjectQuery};
ghost use Rattle.class_mapping.specs.Mapped.{Mapped};
ghost use Rattle.main_selects.specs.MainSelect.{main_select};
ghost use Rattle.load_calls.specs.Reading.{World};
ghost use Rattle.load_queries.specs.Queries.{load_select};
ghost use Rattle.load_queries.specs.Joined.{load_joined};
ghost use Rattle.load_queries.specs.Selectin.{load_objects, load_query};

/// Without options the main select of a query is the query's own select.
pub fn main_selects_stay()
    ensures { (mapped : Mapped) (query : ObjectQuery) → query.joined ≡ []
        → main_select mapped query ≡ query.select }
{}

/// Without options the load by the main select is the load by the query's own select: in each world it sends, answers and leaves
/// the same.
pub fn loads_are_plain()
    ensures { (mapped : Mapped) (query : ObjectQuery) (world : World) → query.joined ≡ []
        → load_joined mapped query world ≡ load_select mapped query world }
{}

/// So the whole load of such a query, with its further options, is the load by its own select with them.
pub fn queries_are_plain()
    ensures { (mapped : Mapped) (query : ObjectQuery) (world : World) → query.joined ≡ []
        → load_query mapped query world ≡ load_objects mapped query world }
{}
