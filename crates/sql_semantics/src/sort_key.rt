//! A value by which rows are ordered.

ghost use Rattle.std.specs.Prelude.{◌≡◌};
ghost use Rattle.sql_semantics.specs.Order as spec;

use base_core::Value;
use std::cmp::Ordering;

/// A value by which rows are ordered, upwards or downwards; the other one is NULL.
#[derive(Drop)]
pub struct SortKey {
    pub ascending: Value,
    pub descending: Value,
}

impl SortKey {
    /// The key of a value; of a descending one the order counts the other way round.
    pub fn new(descending: bool, value: Value) -> SortKey
        ensures { result ≡ spec.key_of descending value }
    {
        if descending {
            SortKey {
                ascending: Value::Null,
                descending: value,
            }
        } else {
            SortKey {
                ascending: value,
                descending: Value::Null,
            }
        }
    }
}

impl PartialEq for SortKey {
    ghost use Rattle.std.specs.Ordering.{eq_by_cmp};
    ghost use Rattle.std.specs.Cmp.{eq_by_cmp_equiv, partial_equiv_from_equiv};
    ghost use Rattle.sql_semantics.specs.Order.{key_cmp, key_cmp_total};

    ghost eq = { eq_by_cmp key_cmp };

    ghost laws = { partial_equiv_from_equiv (eq_by_cmp_equiv key_cmp_total) };

    fn eq(&self, other: &SortKey) -> bool {
        self.cmp(other).is_eq()
    }
}

impl Eq for SortKey {
    ghost use Rattle.std.specs.Cmp.{eq_by_cmp_equiv};
    ghost use Rattle.sql_semantics.specs.Order.{key_cmp_total};

    ghost laws = { eq_by_cmp_equiv key_cmp_total };
}

impl PartialOrd for SortKey {
    ghost use Rattle.std.specs.Ordering.{as_partial_cmp};
    ghost use Rattle.std.specs.Cmp.{partial_order_from_total};
    ghost use Rattle.sql_semantics.specs.Order.{key_cmp, key_cmp_total};

    ghost partial_cmp = { as_partial_cmp key_cmp };

    ghost laws = { partial_order_from_total key_cmp_total };

    fn partial_cmp(&self, other: &SortKey) -> Option<Ordering> {
        Some(self.cmp(other))
    }
}

impl Ord for SortKey {
    ghost use Rattle.std.specs.Prelude.{refl};
    ghost use Rattle.sql_semantics.specs.Order.{key_cmp, key_cmp_total};

    ghost cmp = { key_cmp };

    ghost total = { key_cmp_total };

    ghost matches_partial_cmp = { λ _ _. refl };

    ghost matches_eq = { λ _ _. refl };

    fn cmp(&self, other: &SortKey) -> Ordering {
        self.ascending
            .cmp(&other.ascending)
            .then(other.descending.cmp(&self.descending))
    }
}
