//! Blanks and comments.

ghost use Rattle.std.specs.Prelude.{◌≡◌, ◌≤◌, length, IfSome};
ghost use Rattle.pads_lex.specs.Gaps.{is_close, close_length, block_comment, comment};

use crate::LexKind;
use crate::run::Class;
use crate::step::Step;

#[tactic(auto, unfolding(crate::specs::Gaps::is_close))]
fn is_close(first: u8, second: u8) -> bool
    ensures close { result ≡ is_close first second }
{
    first == b'*' && second == b'/'
}

/// How many bytes there are up to the next `*/`, which is counted.
fn close_length(text: &[u8]) -> Option<usize>
    ensures found { result ≡ close_length text.now }
    ensures within { IfSome result (λ count. count ≤ length text.now) }
{
    let mut at = 0;
    'bytes: while at + 1 < text.len() {
        if is_close(text[at], text[at + 1]) {
            return Some(at + 2);
        }
        at += 1;
    }
    None
}

/// The comment whose bytes behind its `/*` these are.
#[tactic(auto, unfolding(crate::specs::Gaps::block_comment))]
fn block_comment(body: &[u8]) -> Step
    ensures step { result ≡ block_comment body.now }
{
    match close_length(body) {
        Some(count) => Step::Gap(count + 2),
        None => Step::Fault(LexKind::OpenComment, 0),
    }
}

/// The comment that begins at the front of a text.
#[tactic(auto, unfolding(crate::specs::Gaps::comment))]
pub(crate) fn comment(text: &[u8]) -> Option<Step>
    ensures found { result ≡ comment text.now }
{
    match text {
        [b'/', b'*', body @ ..] => Some(block_comment(body)),
        [b'/', b'/', body @ ..] => Some(Step::Gap(Class::Line.run(body) + 2)),
        [b'/', b'-', body @ ..] => Some(Step::Gap(Class::Line.run(body) + 2)),
        _ => None,
    }
}
