ghost use Rattle.std.specs.Prelude.{◌≡◌, IfOk};
ghost use Rattle.pads_compile.specs.Compiling.{Compiles};
ghost use Rattle.pads_image.specs.Answers.{StandsFor};
ghost use Rattle.pads_image.specs.Code.{length_of};
ghost use Rattle.pads_value.specs.Header.{capped};

use crate::emit::{Code, emit_decls};
use crate::size::length;
use pads_image::Image;
use pads_module::Module;
use pads_value::Refusal;
use std::alloc::Global;

/// The most instructions of an image.
pub const LONGEST: u64 = 1_048_576;

/// The image would have more instructions than an image may have.
#[derive(Clone, Copy, Debug, Drop, PartialEq, Eq)]
pub struct TooLarge {
    /// How many instructions it would have, or 2^64 - 1 where they are more.
    pub length: u64,
}

/// How many instructions the image of a module has, or 2^64 - 1 where they are more. Takes no memory.
pub fn image_length(rules: &Module) -> u64
    ensures length { result ≡ capped (length_of rules.now.decls) }
{
    length(rules.decls.as_slice())
}

/// The image of a module. `TooLarge` exactly where it would have more than 1,048,576 instructions. Takes
/// time linear in the module, times the depth at which unions and arrays stand in one another.
pub fn compile(alloc: Global, rules: &Module) -> Result<Image, Refusal<TooLarge>>
    ensures compiled { Compiles rules.now.decls rules.now.shape rules.now.scan result }
    ensures stands { IfOk result (λ image. StandsFor image.code image.entries image.shape image.need rules.now.decls) }
{
    let length = image_length(rules);
    if length > LONGEST {
        return Err(Refusal::Fault(TooLarge { length }));
    }
    let Code { ops, entries } = emit_decls(alloc, rules.decls.as_slice())?;
    Ok(Image::new(alloc, ops, entries, rules.shape, rules.scan)?)
}
