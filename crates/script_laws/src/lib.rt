//! Laws of reading: the texts of statements in three dialects, in which no value stands, are read as one statement with their values,
//! and lines as what the forms of the language say. Laws of scripts: each line keeps the session whole, from the first to the last, and
//! so does the end of the script; and what lines answer and leave, and how runs end.
#![tactic(auto)]

mod answered_lines;
mod expression_laws;
mod grammar_laws;
mod left;
mod line_laws;
mod lines;
mod runs;
mod scripts;
mod statement_laws;
mod text_form_laws;
mod text_reading_laws;
mod token_laws;
mod value_laws;

pub use answered_lines::{lines_that_flush_are_carried_out, words_that_flush_are_read};
pub use expression_laws::{expressions_are_read, texts_tell_trees};
pub use grammar_laws::one_tree;
pub use left::lines_that_flush_leave_the_stated_rows;
pub use line_laws::lines_are_answered_as_the_language_says;
pub use lines::{lines_keep_whole, perform_whole};
pub use runs::run_to_its_end;
pub use scripts::{scripts_end_whole, scripts_have_one_object_for_each_key, scripts_stay_whole};
pub use statement_laws::{
    declared_names_are_distinct, one_bulk, one_row, one_select, one_statement, plain_has_cuts,
    sent_is_plain, texts_tell_statements,
};
pub use text_form_laws::{bulks_are_read, rows_are_read, selects_are_read, statements_are_read};
pub use text_reading_laws::{
    bulk_texts_tell_forms, one_bulk_form, one_row_form, one_select_form, row_texts_tell_forms,
    select_texts_tell_forms, texts_tell_expressions,
};
pub use token_laws::tokens_are_what_is_spelled;
pub use value_laws::values_are_in_no_text;
