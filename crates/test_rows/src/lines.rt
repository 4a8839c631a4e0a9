//! The lines of a table.

use std::alloc::{AllocError, Global};

/// Whether a line of a table is no line of a row: it is empty, or begins with `#`.
pub fn is_note(line: &str) -> bool {
    line.is_empty() || line.starts_with('#')
}

/// The lines of a row, without notes and without the blanks around them. There are none in a block of notes.
pub fn lines_of(alloc: Global, block: &str) -> Result<Vec<&str>, AllocError> {
    let mut lines = Vec::new(alloc);
    for line in block.lines() {
        let line = line.trim();
        if !is_note(line) {
            lines.push(line)?;
        }
    }
    Ok(lines)
}
