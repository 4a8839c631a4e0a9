ghost use Rattle.std.specs.Prelude.{◌≡◌, ◌++◌, decimal, OnOk};
ghost use Rattle.json.specs.Print.{escape};
ghost use Rattle.pads_forms.specs.Steps.{step_seen};
ghost use Rattle.pads_json.specs.Places.{first, later, word, steps, place_text};

use crate::text::{write_points, write_text};
use itoa::Buffer;
use pads_forms::Step;
use pads_value::{Bytes, Memory};

/// Where a node stands in the body of a record.
#[derive(Clone, Copy)]
pub(crate) enum Place<'p, 'm> {
    Body,
    Below(&'p Place<'p, 'm>, Step<'m>),
}

/// Writes a number in a text.
fn write_number(out: &mut Bytes, number: u64) -> Result<(), Memory>
    ensures written { OnOk result (out.new ≡ out.old ++ escape (decimal number)) }
{
    let mut buffer = Buffer::new();
    write_text(out, buffer.format(number).as_bytes())
}

/// What stands before a step's word directly below the body.
fn before_first(step: Step<'_>) -> &'static [u8]
    ensures first { result.now ≡ first (step_seen step.entry) }
{
    match step {
        Step::Named(_) | Step::Unnamed(_) => b"",
        Step::Element(_) => b"$",
    }
}

/// What stands before a step's word below another node.
fn before_later(step: Step<'_>) -> &'static [u8]
    ensures later { result.now ≡ later (step_seen step.entry) }
{
    match step {
        Step::Named(_) | Step::Unnamed(_) => b".",
        Step::Element(_) => b"",
    }
}

/// Writes a step's word.
#[tactic(auto, using(crate::proofs::Texts::escaped_append))]
fn write_word(out: &mut Bytes, step: Step<'_>) -> Result<(), Memory>
    ensures written { OnOk result (out.new ≡ out.old ++ escape (word (step_seen step.entry))) }
{
    match step {
        Step::Named(name) => write_points(out, name),
        Step::Unnamed(number) => {
            write_text(out, b"#")?;
            write_number(out, number)
        }
        Step::Element(number) => {
            write_text(out, b"[")?;
            write_number(out, number)?;
            write_text(out, b"]")
        }
    }
}

impl Place<'_, '_> {
    /// Writes the place as lines tell it.
    #[tactic(auto, using(crate::proofs::Texts::escaped_append))]
    pub(crate) fn write(&self, out: &mut Bytes) -> Result<(), Memory>
        ensures written { OnOk result (out.new ≡ out.old ++ escape (place_text (steps self.now))) }
    {
        match self {
            Place::Body => write_text(out, b"$"),
            Place::Below(Place::Body, step) => {
                write_text(out, before_first(*step))?;
                write_word(out, *step)
            }
            Place::Below(above, step) => {
                above.write(out)?;
                write_text(out, before_later(*step))?;
                write_word(out, *step)
            }
        }
    }
}
