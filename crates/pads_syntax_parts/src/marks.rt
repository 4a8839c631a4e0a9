ghost use Rattle.std.specs.Prelude.{◌≡◌, Ok};
ghost use Rattle.pads_grammar.specs.Grammar.{reads, begins, optional, token, then_read, mark, keyword};
ghost use Rattle.pads_grammar.specs.Reads.{Reads};

use pads_grammar::{Cursor, Reading};
use pads_lex::{Keyword, Mark};

/// The place of a mark, where it stands there.
pub fn optional_mark(cursor: &mut Cursor<'_>, expected: Mark) -> Reading<Option<u64>>
    ensures reads { Reads (reads (optional (mark expected)) cursor.old) result cursor.new }
{
    if !cursor.peek().is_mark(expected) {
        return Ok(None);
    }
    Ok(Some(cursor.mark(expected)?))
}

/// The place of a keyword, where it stands there.
pub fn optional_keyword(cursor: &mut Cursor<'_>, expected: Keyword) -> Reading<Option<u64>>
    ensures reads { Reads (reads (optional (keyword expected)) cursor.old) result cursor.new }
{
    if !cursor.peek().is_keyword(expected) {
        return Ok(None);
    }
    Ok(Some(cursor.keyword(expected)?))
}

/// What was read, and the place of the mark that stands behind it.
pub fn with_mark<T: Drop>(read: T, cursor: &mut Cursor<'_>, expected: Mark) -> Reading<(T, u64)>
    ensures reads { Reads (then_read (reads (mark expected) cursor.old) (λ at rest. Ok ((read, at), rest))) result cursor.new }
{
    let at = cursor.mark(expected)?;
    Ok((read, at))
}
