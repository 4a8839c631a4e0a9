ghost use Rattle.std.specs.Prelude.{◌≡◌, ◌+◌, ◌*◌, ◌<◌, ◌≤◌, ◌^◌, length, take, MatchOption, slice_index, true, false};
ghost use Rattle.pads_frame.specs.declared.discipline.Discipline.TheVariants.{Term, Fixed, Rdw, Whole};
ghost use Rattle.pads_frame.specs.Extents.{broken_extent, mark_of, run, word_length, has_word};
ghost use Rattle.pads_frame.specs.Fits.{FitsLimit};
ghost use Rattle.pads_frame.specs.State.{HasSearched, MayPass};
ghost use Rattle.pads_frame.specs.Looks.{LookGives, OpenGives};

use crate::discipline::{Discipline, Extent};
use byteorder::{BigEndian, ByteOrder};
use memchr::memchr;
use pads_value::Mark;

/// What the held bytes say of the frame in work.
#[derive(Clone, Copy, Debug)]
pub enum Look {
    /// It closes, and lies so in the bytes from its first on.
    Found(Extent),
    /// It carries no bytes, and the held ones don't close it.
    Pass,
    /// More bytes are wanted.
    Wait,
}

/// The mark of a frame of so many bytes, where at most `max` are allowed.
fn mark_within(max: u64, len: u64) -> Mark
    ensures { result ≡ mark_of max len }
{
    if len <= max { Mark::Plain } else { Mark::Long }
}

/// The first place of the terminator. The first `searched` bytes are known to have none.
fn find_terminator(terminator: u8, held: &[u8], searched: usize) -> Option<usize>
    requires within { searched ≤ length held.now }
    requires none_before { run terminator (take searched held.now) ≡ searched }
    ensures { MatchOption result (run terminator held.now ≡ length held.now)
        (λ place. (run terminator held.now ≡ place) × (place < length held.now)) }
{
    match memchr(terminator, &held[searched..]) {
        Some(place) => Some(searched + place),
        None => None,
    }
}

/// A frame of `len` bytes so far, which only the end of the input can close.
fn look_open(max: u64, len: u64, ended: bool) -> Look
    ensures { OpenGives max len ended result }
{
    if len == 0 {
        Look::Wait
    } else if ended {
        Look::Found(Extent {
            lead: 0,
            len,
            terminator: 0,
            mark: mark_within(max, len),
            closed: false,
        })
    } else if len > max {
        Look::Pass
    } else {
        Look::Wait
    }
}

fn look_term(
    terminator: u8,
    max: u64,
    passed: u64,
    held: &[u8],
    searched: usize,
    ended: bool,
) -> Look
    requires within { searched ≤ length held.now }
    requires none_before { run terminator (take searched held.now) ≡ searched }
    requires may_pass { MayPass (Term terminator) max passed held.now }
    requires fits { passed + length held.now ≤ 2 ^ 62 }
    ensures { LookGives (Term terminator) max passed held.now ended result }
{
    match find_terminator(terminator, held, searched) {
        Some(place) => {
            let len = passed + place as u64;
            Look::Found(Extent {
                lead: 0,
                len,
                terminator: 1,
                mark: mark_within(max, len),
                closed: true,
            })
        }
        None => look_open(max, passed + held.len() as u64, ended),
    }
}

fn look_whole(max: u64, passed: u64, held: &[u8], ended: bool) -> Look
    requires may_pass { MayPass Whole max passed held.now }
    requires fits { passed + length held.now ≤ 2 ^ 62 }
    ensures { LookGives Whole max passed held.now ended result }
{
    look_open(max, passed + held.len() as u64, ended)
}

fn look_fixed(block: u64, max: u64, held: &[u8], ended: bool) -> Look
    requires some { 0 < block }
    requires within { block ≤ max }
    ensures { LookGives (Fixed block) max 0 held.now ended result }
{
    let len = held.len() as u64;
    if len >= block {
        return Look::Found(Extent {
            lead: 0,
            len: block,
            terminator: 0,
            mark: Mark::Plain,
            closed: true,
        });
    }
    if ended && len > 0 {
        return Look::Found(Extent {
            lead: 0,
            len,
            terminator: 0,
            mark: Mark::Short,
            closed: false,
        });
    }
    Look::Wait
}

/// The length that the descriptor word at the front gives, where there is a good one.
fn read_word(held: &[u8]) -> Option<u64>
    ensures { MatchOption result (has_word held.now ≡ false)
        (λ size. (has_word held.now ≡ true) × (size ≡ word_length held.now)) }
{
    if held.len() < 4 {
        return None;
    }
    let size = u64::from(BigEndian::read_u16(held));
    if size < 4 {
        return None;
    }
    if held[2] != 0 {
        return None;
    }
    if held[3] != 0 {
        return None;
    }
    Some(size)
}

/// A frame of `len` bytes so far, that is broken at the end of the input.
fn broken(len: u64) -> Extent
    ensures { result ≡ broken_extent len }
{
    Extent {
        lead: 0,
        len,
        terminator: 0,
        mark: Mark::Broken,
        closed: false,
    }
}

fn look_record(size: u64, max: u64, passed: u64, held: &[u8], ended: bool) -> Look
    requires word { has_word held.now ≡ true }
    requires size { size ≡ word_length held.now }
    requires may_pass { MayPass Rdw max passed held.now }
    requires fits { passed + length held.now ≤ 2 ^ 62 }
    requires limit { max ≤ 2 ^ 62 }
    ensures { LookGives Rdw max passed held.now ended result }
{
    let len = passed + held.len() as u64;
    if size <= len {
        return Look::Found(Extent {
            lead: 4,
            len: size - 4,
            terminator: 0,
            mark: mark_within(max, size - 4),
            closed: true,
        });
    }
    if ended {
        return Look::Found(broken(len));
    }
    if size > max + 4 {
        return Look::Pass;
    }
    Look::Wait
}

fn look_wordless(max: u64, passed: u64, held: &[u8], ended: bool) -> Look
    requires word { has_word held.now ≡ false }
    requires may_pass { MayPass Rdw max passed held.now }
    requires fits { passed + length held.now ≤ 2 ^ 62 }
    ensures { LookGives Rdw max passed held.now ended result }
{
    let len = passed + held.len() as u64;
    if ended {
        if len == 0 {
            return Look::Wait;
        }
        return Look::Found(broken(len));
    }
    if held.len() >= 4 {
        return Look::Pass;
    }
    Look::Wait
}

fn look_rdw(max: u64, passed: u64, held: &[u8], ended: bool) -> Look
    requires may_pass { MayPass Rdw max passed held.now }
    requires fits { passed + length held.now ≤ 2 ^ 62 }
    requires limit { max ≤ 2 ^ 62 }
    ensures { LookGives Rdw max passed held.now ended result }
{
    match read_word(held) {
        Some(size) => look_record(size, max, passed, held, ended),
        None => look_wordless(max, passed, held, ended),
    }
}

/// What `held` says of the frame in work, of whose bytes `passed` were passed over.
pub fn look_at(
    discipline: Discipline,
    max: u64,
    passed: u64,
    held: &[u8],
    searched: usize,
    ended: bool,
) -> Look
    requires within { searched ≤ length held.now }
    requires has_searched { HasSearched discipline searched held.now }
    requires fits_limit { FitsLimit discipline max }
    requires may_pass { MayPass discipline max passed held.now }
    requires fits { passed + length held.now ≤ 2 ^ 62 }
    requires limit { max ≤ 2 ^ 62 }
    ensures { LookGives discipline max passed held.now ended result }
{
    match discipline {
        Discipline::Term(terminator) => look_term(terminator, max, passed, held, searched, ended),
        Discipline::Fixed(block) => look_fixed(u64::from(block), max, held, ended),
        Discipline::Rdw => look_rdw(max, passed, held, ended),
        Discipline::Whole => look_whole(max, passed, held, ended),
    }
}
