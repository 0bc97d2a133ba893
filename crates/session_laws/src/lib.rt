//! Laws of what a flush writes and leaves: its plans, their prefixes, what the objects hold and what can be sent. Laws of sessions: those
//! that are sound, their scopes, links and calls, their flush over a store that is told, and whole calls one after another, which keep
//! a session healthy and whole, and whose flushes answer whenever what the objects state can be written. Each is the contract of a
//! function that does nothing, that names the laws on which it rests, or, of configured mappings, of one that asks the mapping.
#![tactic(auto)]

mod complete_laws;
mod configured_laws;
mod graph_laws;
mod healthy_laws;
mod held_laws;
mod legal_prefixes;
mod link_call_laws;
mod link_laws;
mod load_laws;
mod order;
mod own_row_laws;
mod preparation_laws;
mod project_laws;
mod scope_laws;
mod second_flush_laws;
mod sendable_laws;
mod sound_calls;
mod sound_flush_laws;
mod sound_sessions;
mod stated_flush_laws;
mod table_call_laws;
mod told_flush_laws;
mod whole_laws;
mod worked;

pub use complete_laws::{
    flushes_are_built, flushes_leave_the_stated_rows, stated_objects_are_written,
};
pub use configured_laws::{plain_classes, well_mapped_tables};
pub use graph_laws::{
    accepted_flushes_are_stated, changes_are_projected, flush_prefixes_are_legal,
    foreign_keys_are_of_one_kind, tables_and_discriminators,
};
pub use healthy_laws::{
    a_new_session_is_healthy, calls_keep_health, flushing_calls_keep_health,
    one_object_stands_for_each_key, what_is_told_stays_healthy,
};
pub use held_laws::{flushed_objects_hold, new_objects_have_keys};
pub use legal_prefixes::{
    accepted_plans_are_stated, inserts_are_legal, plans_are_legal, premises_are_met,
};
pub use link_call_laws::changing_links_keeps_sound;
pub use link_laws::{
    append_changes_both_sides, collections_repeat_no_member, links_alone_change,
    remove_changes_both_sides, set_changes_three_links,
};
pub use load_laws::{
    loads_keep_health, loads_keep_objects_fitting, loads_keep_sound, loads_keep_whole,
    loads_touch_the_noted, sessions_go_on_across_loads,
};
pub use order::{numbers_are_by_place, order_or_cycle, runs_are_longest, runs_are_whole};
pub use own_row_laws::{objects_have_own_rows, pairs_are_once};
pub use preparation_laws::preparations_keep_sessions_whole;
pub use project_laws::{
    changed_cells_are_in_order, found_cells_are_known, gone_rows_are_whole, key_parts_are_foreign,
    late_keys_are_fit, new_rows_are_whole, new_rows_have_keys, passed_keys_are_switched,
    switches_keep_rows_apart,
};
pub use scope_laws::{made_since_goes_back, restore_gives_the_start, touches_and_loads_only_grow};
pub use second_flush_laws::{no_row_changes, no_row_is_new, no_statement_is_planned};
pub use sendable_laws::{changes_fit, fit_plans_are_sendable};
pub use sound_calls::{
    coming_in_keeps_sound, committing_keeps_sound, making_keeps_sound, savepoints_keep_sound,
    statements_keep_sound,
};
pub use sound_flush_laws::{
    a_flush_keeps_a_told_session_sound, a_refused_flush_leaves_sound,
    an_answered_flush_of_a_told_session_leaves_sound,
};
pub use sound_sessions::{
    a_new_session_is_sound, calls_on_objects_keep_sound, closing_keeps_sound, entering_keeps_sound,
    rolling_back_keeps_sound,
};
pub use stated_flush_laws::{a_flush_leaves_the_stated_rows, a_flush_of_stated_tables_answers};
pub use table_call_laws::{dropping_tables_keeps_sound, making_tables_keeps_sound};
pub use told_flush_laws::{
    a_flush_leaves_legal_tables, a_flush_sends_its_plan, a_flush_sends_planned_statements,
    a_second_flush_sends_nothing, a_told_flush_is_its_run, an_accepted_flush_answers,
};
pub use whole_laws::{
    a_new_session_is_whole, calls_keep_objects_fitting, calls_keep_tables_legal, calls_keep_whole,
    sessions_have_one_object_for_each_key,
};
pub use worked::{worked_cycles, worked_old, worked_plans, worked_runs};
