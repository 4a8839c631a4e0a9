//! Text that grows piece by piece.
use std::alloc::{AllocError, Global};

/// A text, and whether memory was found for all of its pieces. It is told at the end whether it was, so
/// that no piece asks for a test of its own.
#[derive(Drop)]
pub(crate) struct Line {
    text: String,
    is_whole: bool,
}

impl Line {
    /// The empty text.
    pub(crate) fn new(alloc: Global) -> Line {
        Line {
            text: String::new(alloc),
            is_whole: true,
        }
    }

    fn note(&mut self, written: Result<(), AllocError>) {
        if written.is_err() {
            self.is_whole = false;
        }
    }

    /// Adds words as they stand.
    pub(crate) fn put(&mut self, piece: &str) {
        let written = self.text.push_str(piece);
        self.note(written);
    }

    /// Adds a number in decimal digits.
    pub(crate) fn put_number(&mut self, number: i128) {
        let written = write!(self.text, "{number}");
        self.note(written);
    }

    /// One character, or a backslash and its two hex digits where it is a quote, a backslash, or
    /// no printable ASCII.
    fn put_point(&mut self, point: u8) {
        let written = if matches!(point, b' '..=b'!' | b'#'..=b'[' | b']'..=b'~') {
            self.text.push(point as char)
        } else {
            write!(self.text, "\\{point:02x}")
        };
        self.note(written);
    }

    /// Adds characters, each as [`Line::put_quoted`] shows it, without quotes.
    pub(crate) fn put_points(&mut self, points: &[u8]) {
        for point in points {
            self.put_point(*point);
        }
    }

    /// Adds characters in quotes: a quote, a backslash and what is no printable ASCII as a backslash and two hex digits.
    pub(crate) fn put_quoted(&mut self, points: &[u8]) {
        self.put("\"");
        self.put_points(points);
        self.put("\"");
    }

    /// What stands between an item of this number and the one before.
    pub(crate) fn put_between(&mut self, at: usize, piece: &str) {
        if at > 0 {
            self.put(piece);
        }
    }

    /// The whole text, or want of memory where it came at any piece.
    pub(crate) fn finish(self) -> Result<String, AllocError> {
        let Line { text, is_whole } = self;
        if is_whole { Ok(text) } else { Err(AllocError) }
    }
}
