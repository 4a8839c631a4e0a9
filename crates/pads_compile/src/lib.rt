//! Compiling: from the terms of a module to the code of an image.
#![tactic(auto)]

mod compiling;
mod emit;
mod leaf;
mod places;
mod size;

pub use compiling::{LONGEST, TooLarge, compile, image_length};
