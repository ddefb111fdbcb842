//! What all texts of lineup are made of: lines, words, names and numbers, and faults by line.
//!
//! Every reader of the product is a definition on lists of bytes and a function that meets it. This
//! crate has the parts that they share.
#![tactic(auto)]

mod bundle;
mod fault;
mod line;
mod name;
mod number;
mod words;

pub use bundle::{bundle_parts, is_meant_as_separator, is_separator, meant_parts};
pub use fault::Fault;
pub use line::{are_allowed, before_comment, cut_line, kept_lines, lines_of, parts_of, words_of};
pub use name::{MOST_NAME, Name, has_name_form, is_long};
pub use number::{is_number, number_up_to, value_in};
pub use words::{exactly_five, exactly_four, exactly_one, exactly_three, exactly_two, position_of};
