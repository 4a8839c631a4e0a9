//! The laws of images: the code of every module is valid and stands for it, and every valid image is that
//! of declarations and answers each record.
#![tactic(auto)]

mod laws;

pub use laws::{
    code_is_valid, code_stands_for_its_module, valid_image_answers,
    valid_image_is_that_of_declarations,
};
