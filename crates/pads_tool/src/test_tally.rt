ghost use Rattle.std.specs.Prelude.{◌≡◌, ◌+◌, ◌^◌, ◌<◌, ◌≤◌, ◌++◌, nat_eq, if◌then◌else◌, decimal, length, OnErr, OnOk};
ghost use Rattle.arrayvec.specs.ArrayVec.{array_vec_len};
ghost use Rattle.pads_tool.specs.Testing.{tally_line};

use pads_describe::{Line, put, put_number};
use pads_drive::Limit;

/// What a self-test counts over its records.
#[derive(Clone, Copy, Debug, Drop)]
pub(crate) struct TestTally {
    pub(crate) records: u64,
    /// Those that are clean.
    pub(crate) clean: u64,
    /// The bytes that are printed of them.
    pub(crate) printed: u64,
}

/// The most records and printed bytes that are counted together.
const MOST: u64 = 1 << 62;

/// Puts a number with words before it behind what stands there.
fn put_count(line: &mut Line, words: &[u8], count: u64)
    requires room { array_vec_len line.old + (length words.now + 20) ≤ 128 }
    ensures put { line.new.items ≡ line.old.items ++ words.now ++ decimal count }
    ensures grown { array_vec_len line.new ≤ array_vec_len line.old + (length words.now + 20) }
{
    put(line, words);
    put_number(line, count);
}

impl TestTally {
    /// The tally of no record.
    pub(crate) fn none() -> TestTally
        ensures none { result ≡ record { records = 0; clean = 0; printed = 0 } }
    {
        TestTally {
            records: 0,
            clean: 0,
            printed: 0,
        }
    }

    /// The tally of one record, and the bytes that are printed of it.
    pub(crate) fn one(is_clean: bool, printed: u64) -> TestTally
        ensures one { result ≡ record { records = 1; clean = if is_clean then 1 else 0; printed = printed } }
    {
        TestTally {
            records: 1,
            clean: u64::from(is_clean),
            printed,
        }
    }

    /// Counts what later records come to.
    pub(crate) fn add(&mut self, later: TestTally) -> Result<(), Limit>
        ensures added { OnOk result (self.old.clean ≤ self.old.records → later.clean ≤ later.records → self.new ≡ record {
          records = self.old.records + later.records;
          clean = self.old.clean + later.clean;
          printed = self.old.printed + later.printed;
        }) }
        ensures within { OnOk result (self.old.records + later.records + (self.old.printed + later.printed) ≤ 2 ^ 62) }
        ensures over { OnErr result (2 ^ 62 < self.old.records + later.records + (self.old.printed + later.printed)) }
    {
        let records = self.records.saturating_add(later.records);
        let printed = self.printed.saturating_add(later.printed);
        if records.saturating_add(printed) > MOST {
            return Err(Limit);
        }
        self.records = records;
        self.clean = self.clean.saturating_add(later.clean);
        self.printed = printed;
        Ok(())
    }

    /// Whether all records are clean.
    pub(crate) fn are_clean(self) -> bool
        ensures clean { result ≡ nat_eq self.clean self.records }
    {
        self.clean == self.records
    }

    /// The line that tells it, and how many bytes the records have.
    pub(crate) fn line(self, bytes: u64) -> Line
        ensures line { result.items ≡ tally_line self bytes }
    {
        let mut line = Line::new();
        put_count(&mut line, b"selftest: records ", self.records);
        put_count(&mut line, b" clean ", self.clean);
        put_count(&mut line, b" bytes ", bytes);
        put_count(&mut line, b" printed ", self.printed);
        line.push(b'\n');
        line
    }
}
