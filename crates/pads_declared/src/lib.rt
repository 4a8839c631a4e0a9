//! The declared types of a description: what its type names mean, and what each declaration declares.
//!
//! [`declared`] gives the declared types in order, by the definitions of the rules. The other calls are the
//! steps on the way, and what the rules ask of trees and types.
#![tactic(auto)]

mod copies;
mod environment;
mod first_numbers;
mod leads;
mod member_numbers;
mod members;
mod name_set;
mod records;
mod trees;
mod type_table;
mod types;

pub use copies::{add_branch, add_part, add_parts, branch_names, param_names};
pub use environment::{declare, declared};
pub use first_numbers::FirstNumbers;
pub use members::{choice_position, element, has_choice, may_choose, member};
pub use name_set::NameSet;
pub use records::{
    is_precord, is_precord_type, is_precursive, is_psource, is_record_list, is_record_list_type,
};
pub use trees::{branches_of, name_of, params_of};
pub use type_table::{Sight, TypeTable};
pub use types::{
    Meaning, base_sort, meaning_of, meaning_sort, plain_meaning, same_text, type_sort,
};
