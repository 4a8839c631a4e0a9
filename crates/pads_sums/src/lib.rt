//! What a summary keeps of the nodes of a part: how many are clean, the numbers among their samples, and
//! the values that came first with how often each has come. What a clean node gives as a sample goes by the
//! form of its part.
#![tactic(auto)]

mod form;
mod part_sum;
mod sample;
mod tracked;

pub use form::{PartForm, Texts};
pub use part_sum::{PartSum, PartSums, SumList, SumLists};
pub use sample::{Given, sample_given};
pub use tracked::{Sample, Tracked};
