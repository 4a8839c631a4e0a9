//! The words of the command line: which are an order, and with which options.
#![tactic(auto)]

mod mask;
mod number;
mod option;
mod order;
mod reading;
mod word;

pub use order::{Cutting, Order, Question, Settings, Usage};
pub use reading::read_order;
pub use word::{Word, Words};

#[cfg(test)]
mod tests;
