use crate::{LexKind, TokenKind};

/// What stands at one place of a text.
#[derive(Drop)]
pub(crate) enum Step {
    /// A blank or a comment, and how many bytes it has.
    Gap(usize),
    /// A token: how many bytes it has, and what it is.
    Stands(usize, TokenKind),
    /// What breaks the rules, and how many bytes further on.
    Fault(LexKind, usize),
}
