//! Trees in short form. Each form stands in brackets of its own, so that the text shows how a tree groups: a
//! chain of operators as `(a - b - c)`, an atom with what stands behind it as `(elts [i] .n)`.

use pads_ast::{Const, Literal, Name, Word};
use pads_lex::lex;
use pads_syntax::{SyntaxFault, parse, parse_expr};
use pads_value::Refusal;
use std::alloc::{AllocError, Global};
use std::fmt::Write;

/// The text that a tree is written to, with the places of its parts or without.
#[derive(Drop)]
pub(crate) struct TreeText {
    pub(crate) alloc: Global,
    pub(crate) text: String,
    places: bool,
}

impl TreeText {
    pub(crate) fn new(alloc: Global, places: bool) -> TreeText {
        TreeText {
            alloc,
            text: String::new(alloc),
            places,
        }
    }

    pub(crate) fn put(&mut self, words: &str) -> Result<(), AllocError> {
        self.text.push_str(words)
    }

    fn place(&mut self, at: u64) -> Result<(), AllocError> {
        if self.places {
            write!(self.text, "@{at}")?;
        }
        Ok(())
    }

    /// A mark or a keyword, and its place.
    pub(crate) fn mark(&mut self, words: &str, at: u64) -> Result<(), AllocError> {
        self.put(words)?;
        self.place(at)
    }

    pub(crate) fn name(&mut self, name: &Name) -> Result<(), AllocError> {
        let text = String::from_utf8_lossy(self.alloc, name.text.as_slice())?;
        self.mark(text.as_str(), name.at)
    }

    pub(crate) fn word(&mut self, word: &Word) -> Result<(), AllocError> {
        match word {
            Word::Char { point, at } => {
                let point = *point as char;
                write!(self.text, "'{point}'")?;
                self.place(*at)
            }
            Word::Text { points, at } => {
                let points = String::from_utf8_lossy(self.alloc, points.as_slice())?;
                write!(self.text, "\"{points}\"")?;
                self.place(*at)
            }
        }
    }

    pub(crate) fn number(&mut self, value: i128, at: u64) -> Result<(), AllocError> {
        write!(self.text, "{value}")?;
        self.place(at)
    }

    pub(crate) fn literal(&mut self, literal: &Literal) -> Result<(), AllocError> {
        match literal {
            Literal::Word(word) => self.word(word),
            Literal::Peor { at } => self.mark("Peor", *at),
        }
    }

    pub(crate) fn constant(&mut self, constant: &Const) -> Result<(), AllocError> {
        match constant {
            Const::Number {
                negative,
                value,
                at,
            } => {
                self.put(if *negative { "-" } else { "" })?;
                self.number(value.get(), *at)
            }
            Const::Word(word) => self.word(word),
        }
    }

    pub(crate) fn refused(&mut self, refusal: Refusal<SyntaxFault>) -> Result<(), AllocError> {
        match refusal {
            Refusal::Fault(SyntaxFault { token, at }) => {
                write!(self.text, "token {token} byte {at}")
            }
            Refusal::Memory => self.put("out of memory"),
        }
    }
}

/// The tree of a description, or its fault.
pub(crate) fn described(alloc: Global, text: &[u8], places: bool) -> Result<String, AllocError> {
    let mut shown = TreeText::new(alloc, places);
    match lex(alloc, text) {
        Ok(tokens) => match parse(alloc, &tokens) {
            Ok(tree) => shown.description(&tree)?,
            Err(refusal) => shown.refused(refusal)?,
        },
        Err(_) => shown.put("no tokens")?,
    }
    Ok(shown.text)
}

/// The tree of a filter, or its fault.
pub(crate) fn filtered(alloc: Global, text: &[u8], places: bool) -> Result<String, AllocError> {
    let mut shown = TreeText::new(alloc, places);
    match lex(alloc, text) {
        Ok(tokens) => match parse_expr(alloc, &tokens) {
            Ok(tree) => shown.expr(&tree.expr)?,
            Err(refusal) => shown.refused(refusal)?,
        },
        Err(_) => shown.put("no tokens")?,
    }
    Ok(shown.text)
}
