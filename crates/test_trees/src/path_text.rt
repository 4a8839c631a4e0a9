//! Paths in short form: each step apart, as `.n`, `[3]` or `[*]`, behind a `$` where one is written.

use crate::tree_text::TreeText;
use pads_lex::lex;
use pads_syntax_path::{Path, PathStep, parse_path};
use std::alloc::{AllocError, Global};
use std::fmt::Write;

impl TreeText {
    fn step(&mut self, step: &PathStep) -> Result<(), AllocError> {
        match step {
            PathStep::Name(name) => {
                let name = String::from_utf8_lossy(self.alloc, name.as_slice())?;
                write!(self.text, " .{name}")
            }
            PathStep::Index(index) => write!(self.text, " [{index}]"),
            PathStep::Each => self.put(" [*]"),
        }
    }

    fn path(&mut self, path: &Path) -> Result<(), AllocError> {
        self.put(if path.root { "$" } else { "-" })?;
        for step in path.steps.as_slice() {
            self.step(step)?;
        }
        Ok(())
    }
}

/// A path, or its fault.
pub(crate) fn pathed(alloc: Global, text: &[u8]) -> Result<String, AllocError> {
    let mut shown = TreeText::new(alloc, false);
    match lex(alloc, text) {
        Ok(tokens) => match parse_path(alloc, &tokens) {
            Ok(path) => shown.path(&path)?,
            Err(refusal) => shown.refused(refusal)?,
        },
        Err(_) => shown.put("no tokens")?,
    }
    Ok(shown.text)
}
