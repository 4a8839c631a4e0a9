ghost use Rattle.std.specs.Prelude.{◌≡◌, ◌↔◌, ◌||◌, [], length, map, slice_get, IsTrue, IfOk, OnOk, OnErr};
ghost use Rattle.std.specs.Bool.{OnFalse};
ghost use Rattle.std.specs.Option.{option_map};
ghost use Rattle.pads_sums.specs.Samples.{num, text};
ghost use Rattle.pads_sums.specs.Adding.{again, counted, counted_by, counted_where, has_room as has_room_of, is_among, is_counted};
ghost use Rattle.pads_sums.specs.Merging.{joined};
ghost use Rattle.pads_sums.specs.Seen.{number_pair, pair_seen, sample_seen, text_pair};

use indexmap::IndexMap;
use pads_value::Memory;
use std::alloc::Global;
use std::marker::Model;

/// What a clean node gives: a number, or a text of code points 00 to FF.
#[derive(Clone, Copy, Debug)]
pub enum Sample<'a> {
    Num(i128),
    Text(&'a [u8]),
}

/// Counts so many occurrences more of a number, where it is tracked; whether it is.
fn number_again(numbers: &mut IndexMap<i128, u64>, more: u64, number: i128) -> bool
    ensures found { result ≡ is_among (num number) (map number_pair numbers.old.entries) }
    ensures pairs { map number_pair numbers.new.entries ≡ again more (num number) (map number_pair numbers.old.entries) }
    ensures same { OnFalse result (map number_pair numbers.new.entries ≡ map number_pair numbers.old.entries) }
{
    match numbers.get_index_of(&number) {
        None => false,
        Some(at) => {
            numbers[at] = numbers[at].saturating_add(more);
            true
        }
    }
}

/// Counts so many occurrences more of a text, where it is tracked; whether it is.
fn text_again(texts: &mut IndexMap<Vec<u8>, u64>, more: u64, points: &[u8]) -> bool
    ensures found { result ≡ is_among (text points.now) (map text_pair texts.old.entries) }
    ensures pairs { map text_pair texts.new.entries ≡ again more (text points.now) (map text_pair texts.old.entries) }
    ensures same { OnFalse result (map text_pair texts.new.entries ≡ map text_pair texts.old.entries) }
{
    match texts.get_index_of(points) {
        None => false,
        Some(at) => {
            texts[at] = texts[at].saturating_add(more);
            true
        }
    }
}

/// Counts so many occurrences of a number: more of a number that is there; a new one is put last where
/// there is room. Whether it is there then.
fn put_number(
    numbers: &mut IndexMap<i128, u64>,
    free: bool,
    more: u64,
    number: i128,
) -> Result<bool, Memory>
    ensures found { IfOk result (λ found. found ≡ (is_among (num number) (map number_pair numbers.old.entries) || free)) }
    ensures pairs { OnOk result (map number_pair numbers.new.entries ≡ counted_where free more (num number) (map number_pair numbers.old.entries)) }
    ensures err { OnErr result (map number_pair numbers.new.entries ≡ map number_pair numbers.old.entries) }
{
    if number_again(numbers, more, number) {
        return Ok(true);
    }
    if !free {
        return Ok(false);
    }
    numbers.insert(number, more)?;
    Ok(true)
}

/// Counts so many occurrences of a text, as `put_number` does. A text that is there isn't copied.
fn put_text(
    alloc: Global,
    texts: &mut IndexMap<Vec<u8>, u64>,
    free: bool,
    more: u64,
    points: &[u8],
) -> Result<bool, Memory>
    ensures found { IfOk result (λ found. found ≡ (is_among (text points.now) (map text_pair texts.old.entries) || free)) }
    ensures pairs { OnOk result (map text_pair texts.new.entries ≡ counted_where free more (text points.now) (map text_pair texts.old.entries)) }
    ensures err { OnErr result (map text_pair texts.new.entries ≡ map text_pair texts.old.entries) }
{
    if text_again(texts, more, points) {
        return Ok(true);
    }
    if !free {
        return Ok(false);
    }
    let key = Vec::from_slice(alloc, points)?;
    texts.insert(key, more)?;
    Ok(true)
}

/// The same of a text of its own, which isn't copied.
fn take_text(
    texts: &mut IndexMap<Vec<u8>, u64>,
    free: bool,
    more: u64,
    points: Vec<u8>,
) -> Result<bool, Memory>
    ensures found { IfOk result (λ found. found ≡ (is_among (text points.items) (map text_pair texts.old.entries) || free)) }
    ensures pairs { OnOk result (map text_pair texts.new.entries ≡ counted_where free more (text points.items) (map text_pair texts.old.entries)) }
{
    if text_again(texts, more, points.as_slice()) {
        return Ok(true);
    }
    if !free {
        return Ok(false);
    }
    texts.insert(points, more)?;
    Ok(true)
}

/// Whether so many values leave room for one more.
fn has_room(room: Option<u64>, count: u64) -> bool
    ensures room { result ≡ has_room_of room count }
{
    match room {
        None => true,
        Some(room) => count < room,
    }
}

/// The values that are tracked, in the order in which they first came, each with the number of its
/// occurrences. Contracts see it as the list of these pairs.
#[derive(Drop)]
pub struct Tracked {
    numbers: IndexMap<i128, u64>,
    texts: IndexMap<Vec<u8>, u64>,
    alloc: Global,
}

impl Model for Tracked {
    ghost use Rattle.std.specs.Prelude.{List, ℕ};
    ghost use Rattle.pads_sums.specs.Samples.{Sample as Of};
    ghost use Rattle.pads_sums.specs.Seen.{pairs};

    ghost Value = { List (Of × ℕ) };

    ghost view = { λ tracked. pairs tracked.numbers.entries tracked.texts.entries };
}

impl Tracked {
    /// No values yet.
    pub fn new(alloc: Global) -> Tracked
        ensures empty { result ≡ [] }
    {
        Tracked {
            numbers: IndexMap::new(alloc),
            texts: IndexMap::new(alloc),
            alloc,
        }
    }

    /// How many values are tracked.
    pub fn len(&self) -> u64
        ensures length { result ≡ length self.now }
    {
        self.numbers.len() as u64 + self.texts.len() as u64
    }

    pub fn is_empty(&self) -> bool
        ensures empty { IsTrue result ↔ (length self.now ≡ 0) }
    {
        self.len() == 0
    }

    /// Counts one occurrence more of a number that is tracked. Another is tracked from now on, where there
    /// is room: for so many values, or for all (`None`). Whether it is tracked then. Without memory all
    /// stays.
    pub fn count_number(&mut self, room: Option<u64>, number: i128) -> Result<bool, Memory>
        ensures found { IfOk result (λ found. found ≡ is_counted room (num number) self.old) }
        ensures counted { OnOk result (self.new ≡ counted room (num number) self.old) }
        ensures err { OnErr result (self.new ≡ self.old) }
    {
        self.count_number_by(room, 1, number)
    }

    /// Counts one occurrence more of a text, as `count_number` does. A text that is tracked isn't copied.
    pub fn count_text(&mut self, room: Option<u64>, points: &[u8]) -> Result<bool, Memory>
        ensures found { IfOk result (λ found. found ≡ is_counted room (text points.now) self.old) }
        ensures counted { OnOk result (self.new ≡ counted room (text points.now) self.old) }
        ensures err { OnErr result (self.new ≡ self.old) }
    {
        let free = has_room(room, self.len());
        put_text(self.alloc, &mut self.texts, free, 1, points)
    }

    /// Counts so many occurrences more of a number; whether it is tracked then.
    fn count_number_by(
        &mut self,
        room: Option<u64>,
        more: u64,
        number: i128,
    ) -> Result<bool, Memory>
        ensures found { IfOk result (λ found. found ≡ is_counted room (num number) self.old) }
        ensures counted { OnOk result (self.new ≡ counted_by room more (num number) self.old) }
        ensures err { OnErr result (self.new ≡ self.old) }
    {
        let free = has_room(room, self.len());
        put_number(&mut self.numbers, free, more, number)
    }

    /// Counts so many occurrences more of a text; whether it is tracked then. A new text is taken over as it
    /// stands.
    fn count_text_by(
        &mut self,
        room: Option<u64>,
        more: u64,
        points: Vec<u8>,
    ) -> Result<bool, Memory>
        ensures found { IfOk result (λ found. found ≡ is_counted room (text points.items) self.old) }
        ensures counted { OnOk result (self.new ≡ counted_by room more (text points.items) self.old) }
    {
        let free = has_room(room, self.len());
        take_text(&mut self.texts, free, more, points)
    }

    fn merge_numbers(
        &mut self,
        room: Option<u64>,
        mut others: u64,
        later: IndexMap<i128, u64>,
    ) -> Result<u64, Memory>
        ensures joined { IfOk result (λ left. (self.new, left) ≡ joined room (self.old, others) (map number_pair later.entries)) }
    {
        'numbers: for (number, count) in later {
            if !self.count_number_by(room, count, number)? {
                others = others.saturating_add(count);
            }
        }
        Ok(others)
    }

    fn merge_texts(
        &mut self,
        room: Option<u64>,
        mut others: u64,
        later: IndexMap<Vec<u8>, u64>,
    ) -> Result<u64, Memory>
        ensures joined { IfOk result (λ left. (self.new, left) ≡ joined room (self.old, others) (map text_pair later.entries)) }
    {
        'texts: for (points, count) in later {
            if !self.count_text_by(room, count, points)? {
                others = others.saturating_add(count);
            }
        }
        Ok(others)
    }

    /// Counts the values of later samples, which are all tracked there, in their order, each with its
    /// occurrences. To the number of samples whose values aren't tracked here those are added that aren't
    /// now. No text is copied. Without memory some of the values are counted.
    pub fn merge(&mut self, room: Option<u64>, others: u64, later: Tracked) -> Result<u64, Memory>
        ensures joined { IfOk result (λ left. (self.new, left) ≡ joined room (self.old, others) later) }
    {
        let Tracked { numbers, texts, .. } = later;
        let others = self.merge_numbers(room, others, numbers)?;
        self.merge_texts(room, others, texts)
    }

    /// Tracked values equal to these.
    pub fn copy(&self) -> Result<Tracked, Memory>
        ensures equal { IfOk result (λ copied. copied ≡ self.now) }
    {
        Ok(Tracked {
            numbers: self.numbers.clone()?,
            texts: self.texts.clone()?,
            alloc: self.alloc,
        })
    }

    /// The value number `at`, from 0, and the number of its occurrences; `None` exactly past the end.
    pub fn at(&self, at: u64) -> Option<(Sample<'_>, u64)>
        ensures pair { option_map pair_seen result ≡ slice_get self.now at }
    {
        let numbers = self.numbers.len() as u64;
        if at < numbers {
            let (number, count) = self.numbers.get_index(at as usize)?;
            return Some((Sample::Num(*number), *count));
        }
        let (text, count) = self.texts.get_index((at - numbers) as usize)?;
        Some((Sample::Text(text.as_slice()), *count))
    }
}
