//! The machine: reads records by an image, one instruction after another, without recursion.
#![tactic(auto)]

mod arrays;
mod between;
mod bindings;
mod choices;
mod constraint;
mod doomed;
mod known;
mod learning;
mod literals;
mod machine;
mod misses;
mod node;
mod passes;
mod recursion;
mod scans;
mod searches;
mod stalls;
mod state;
mod step;

pub use machine::Machine;
