//! The laws, for what a term reads as and for the row of a record.
ghost use Rattle.std.specs.Prelude.{◌≡◌, ℕ, ◌+◌, ◌≤◌, List, length};
ghost use Rattle.pads_value.specs.Cuts.{Cut, cut_of_frame};
ghost use Rattle.pads_value.specs.declared.descriptor.Pd.{out-Pd};
ghost use Rattle.pads_expr.specs.Value.{Pairs};
ghost use Rattle.pads_calc.specs.declared.decl.Decl.{Decl};
ghost use Rattle.pads_calc.specs.declared.decl.Shape.{Shape};
ghost use Rattle.pads_calc.specs.declared.term.Term.{Term};
ghost use Rattle.pads_calc.specs.Calculus.{meaning};
ghost use Rattle.pads_calc.specs.Places.{EndsWithin};
ghost use Rattle.pads_calc.specs.Readings.{Subject};
ghost use Rattle.pads_calc.specs.Rows.{row_of};
ghost use Rattle.law_calculus.specs.Soundness.{CountsAreSound, SpansAreSound};

use pads_value::Frame;

/// The law for what a term reads as, in each environment, at each place of any record, and with calls
/// nested as deep as one likes.
///
/// Its descriptor's counts and spans are sound, its own span goes from the place where the term stands
/// to the place where the reading ends, and that is not before it and within the bytes.
pub fn readings_have_sound_descriptors()
    ensures counts { (subject : Subject) (decls : List Decl) (depth : ℕ) (t : Term) (env : Pairs) (i : ℕ)
        → CountsAreSound (meaning subject decls depth t env i).pd }
    ensures spans { (subject : Subject) (decls : List Decl) (depth : ℕ) (t : Term) (env : Pairs) (i : ℕ)
        → SpansAreSound (meaning subject decls depth t env i).pd }
    ensures extent { (subject : Subject) (decls : List Decl) (depth : ℕ) (t : Term) (env : Pairs) (i : ℕ)
        → let r = meaning subject decls depth t env i in
        (out-Pd r.pd).span ≡ record { begin = subject.origin + i; end = subject.origin + r.place } }
    ensures within { (subject : Subject) (decls : List Decl) (depth : ℕ) (t : Term) (env : Pairs) (i : ℕ)
        → i ≤ length subject.bytes → EndsWithin subject.bytes i (meaning subject decls depth t env i) }
{}

/// The law for the row of a record, whatever its mark and its number, and whatever the source's shape.
///
/// Its descriptor's counts are sound, and so are its spans where the record's bytes lie in its extent, as
/// those of each frame do. Its own span is the record's extent.
pub fn rows_have_sound_descriptors()
    ensures counts { (decls : List Decl) (shape : Shape) (scan number : ℕ) (cut : Cut)
        → CountsAreSound (row_of decls shape scan number cut).pd }
    ensures spans { (decls : List Decl) (shape : Shape) (scan number : ℕ) (cut : Cut)
        → cut.first + length cut.bytes ≤ cut.end → SpansAreSound (row_of decls shape scan number cut).pd }
    ensures extent { (decls : List Decl) (shape : Shape) (scan number : ℕ) (cut : Cut)
        → (out-Pd (row_of decls shape scan number cut).pd).span ≡ record { begin = cut.first; end = cut.end } }
{}

/// The law for the row of a record that a frame lends: its descriptor's counts and spans are sound, with
/// no premise, since the frame's bytes lie in its extent.
pub fn rows_of_frames_have_sound_descriptors(frame: &Frame)
    ensures counts { (decls : List Decl) (shape : Shape) (scan number : ℕ)
        → CountsAreSound (row_of decls shape scan number (cut_of_frame frame.now)).pd }
    ensures spans { (decls : List Decl) (shape : Shape) (scan number : ℕ)
        → SpansAreSound (row_of decls shape scan number (cut_of_frame frame.now)).pd }
{}
