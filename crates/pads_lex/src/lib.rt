//! The tokens of a description, a path or a filter.
//!
//! [`lex`] cuts a text into its tokens, or says where the text first breaks the rules of tokens and
//! how. The rules stand in `specs/Cut.antt`, row by row; between tokens stand blanks and comments.
#![tactic(auto)]

mod byte;
mod fault;
mod gap;
mod laws;
mod literal;
mod name;
mod number;
mod reading;
mod run;
mod step;
#[cfg(test)]
mod tests;
mod token;
mod tokens;
mod words;

pub use fault::{LexFault, LexKind};
pub use laws::each_text_has_one_reading;
pub use name::is_name;
pub use token::{Keyword, Mark, Token, TokenKind, Tokens};
pub use tokens::lex;
