//! Laws of what loads read and fill: what is answered to their selects and to main selects with joined options; and that lazy, joined
//! and select-in loads answer the same objects and fill the same links, those that are related. Each of these functions does nothing
//! when it runs.
#![tactic(auto)]

mod agreement;
mod answer_laws;
mod joined_load_laws;
mod loader_laws;
mod member_laws;
mod plain_loads;
mod plain_selects;
mod strategy_laws;
mod tied_row_laws;
mod to_one_laws;
mod wide_laws;

pub use agreement::{links_agree, loads_answer_alike, own_selects_leave_ready, strategies_agree};
pub use answer_laws::{keyed_rows_are_filters, rows_of_keys_are_filters};
pub use joined_load_laws::{
    joined_collections_agree, joined_ends_agree, joined_loads_answer_the_same_objects,
    joined_loads_fill_what_is_related, joined_loads_lead_to_targets, joined_pairs_agree,
};
pub use loader_laws::{
    identity_map_agrees_with_rows, lazy_loads_fill_links, lazy_loads_leave_the_rest,
    lazy_loads_read_keys_first, links_read_lazily, loaders_agree, options_fill_links,
    selectin_loads_ask_in_batches, selectin_loads_fill_links, selectin_loads_leave_the_rest,
    selectin_loads_leave_the_rest_always,
};
pub use member_laws::{batch_is_paired, members_are_paired};
pub use plain_loads::{loads_are_plain, main_selects_stay, queries_are_plain};
pub use plain_selects::main_selects_are_plain;
pub use strategy_laws::{
    lazy_loads_fill_pairs, lazy_loads_fill_what_is_related, lazy_loads_lead_to_targets,
    selectin_loads_fill_pairs, selectin_loads_fill_what_is_related, selectin_loads_lead_to_targets,
    strategies_fill_alike, strategies_lead_alike, strategies_pair_alike,
};
pub use tied_row_laws::options_give_tied;
pub use to_one_laws::{legal_tables_are_in_key_order, to_one_options_put_one};
pub use wide_laws::{main_selects_answer_blocks, main_selects_multiply};
