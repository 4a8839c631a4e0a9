//! What is told of a row.
use crate::judgement::judged;
use crate::path_text::pathed;
use crate::tree_text::{described, filtered};
use std::alloc::{AllocError, Global};

/// What is told of what a row asks for: a word, and behind it the text that it is about. Of a note, nothing.
pub(crate) fn told(alloc: Global, asked: &str) -> Result<String, AllocError> {
    if asked.is_empty() || asked.starts_with('#') {
        return Ok(String::new(alloc));
    }
    let (word, text) = asked.split_once(' ').unwrap_or((asked, ""));
    let text = text.as_bytes();
    let mut answer = if word == "tree" {
        described(alloc, text, false)?
    } else if word == "tree@" {
        described(alloc, text, true)?
    } else if word == "filter" {
        filtered(alloc, text, false)?
    } else if word == "filter@" {
        filtered(alloc, text, true)?
    } else if word == "path" {
        pathed(alloc, text)?
    } else if word == "judge" {
        judged(alloc, text)?
    } else {
        String::from_str(alloc, "no word of a table")?
    };
    answer.push('\n')?;
    Ok(answer)
}
