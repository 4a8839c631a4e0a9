ghost use Rattle.std.specs.Prelude.{◌≡◌, ◌+◌, ◌≤◌, length, take, IfSome, IfNone};
ghost use Rattle.pads_calc.specs.Wrappers.{last_place as last_place_of};
ghost use Rattle.pads_steps.specs.Records.{subject_of};
ghost use Rattle.pads_steps.specs.Searches.{IsFirst, StandsNowhere};

use crate::Record;
use memchr::memmem;

/// The first bytes, so many where there are so many.
fn beginning(bytes: &[u8], size: u64) -> &[u8]
    ensures beginning { result.now ≡ take size bytes.now }
{
    if bytes.len() as u64 <= size {
        return bytes;
    }
    &bytes[..size as usize]
}

impl Record<'_> {
    /// The last place at which what is looked for from a place on may stand.
    pub fn last_place(&self, place: u64) -> u64
        requires { place ≤ length self.now.bytes.now }
        ensures last { result ≡ last_place_of (subject_of self.now) place }
    {
        (place + u64::from(self.scan)).min(self.bytes.len() as u64)
    }

    /// The first place from here to a last one at which a literal's bytes stand. No byte is looked at that
    /// the literal can't have at these places.
    pub fn first_place(&self, literal: &[u8], place: u64, last: u64) -> Option<u64>
        requires place { place ≤ last }
        requires last { last ≤ length self.now.bytes.now }
        ensures first { IfSome result (λ at. IsFirst self.now.bytes.now literal.now place last at) }
        ensures none { IfNone result (StandsNowhere self.now.bytes.now literal.now place (last + 1)) }
    {
        let size = last - place + literal.len() as u64;
        match memmem::find(beginning(self.rest(place), size), literal) {
            Some(skipped) => Some(place + skipped as u64),
            None => None,
        }
    }
}
