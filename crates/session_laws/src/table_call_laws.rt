//! The making and the dropping of tables keep a session sound. Each law is the contract of a function that does nothing, so there is no
//! body that could be turned into a wrong one.

ghost use Rattle.table_laws.specs.Legality.{IsAscendingStore};
ghost use Rattle.session_laws.specs.Sound.{KeepsSoundWhere};
ghost use Rattle.session_tables.specs.Steps.{change_all};
ghost use Rattle.session_tables.specs.declared.tables.TableChange.TheVariants.{Create, Drop};

/// The making of all tables that are not there keeps a session sound, and so does its refusal, in the midst too. What was there is as
/// it was.
pub fn making_tables_keeps_sound()
    ensures { KeepsSoundWhere (λ world. IsAscendingStore world.store) (change_all Create) }
{}

/// The dropping of all tables keeps a session sound, and so does its refusal: no row is left, and nothing is known of any.
pub fn dropping_tables_keeps_sound()
    ensures { KeepsSoundWhere (λ world. IsAscendingStore world.store) (change_all Drop) }
{}
