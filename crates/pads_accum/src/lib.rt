//! Summaries of rows: what each part of a record type gave, over all rows.
#![tactic(auto)]

mod add;
mod below;
mod chunk;
mod copies;
mod empty;
mod feed;
mod guide;
mod guides;
mod joining;
mod laws;
mod limit;
mod merge;
mod merge_over;
mod others;
mod over;
mod place;
mod summary;
mod sums;

pub use chunk::Chunk;
pub use laws::{
    chunks_join, merges_pass_together, summaries_take_chunks, whole_summaries_are_chunks,
};
pub use limit::Limit;
pub use summary::Summary;
