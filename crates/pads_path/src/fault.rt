ghost use Rattle.std.specs.Prelude.{◌≡◌};
ghost use Rattle.pads_path.specs.Resolving.{reason_name};

/// Why a step of a path names no part.
#[derive(Clone, Copy, Debug, PartialEq, Eq)]
pub enum PathReason {
    /// The node is a struct without a part of that name.
    NoField,
    /// The node is a union or an optional without a branch of that name.
    NoBranch,
    /// A name stands at a node that is neither.
    NotNamed,
    /// An index or `[*]` stands at a node that is no array.
    NotArray,
}

impl PathReason {
    /// The reason's name, as a refusal tells it.
    pub fn name(self) -> &'static str
        ensures name { result.now ≡ reason_name self }
    {
        match self {
            PathReason::NoField => "NoField",
            PathReason::NoBranch => "NoBranch",
            PathReason::NotNamed => "NotNamed",
            PathReason::NotArray => "NotArray",
        }
    }
}

/// The first step of a path that names no part of the record type.
#[derive(Clone, Copy, Debug, PartialEq, Eq)]
pub struct PathFault {
    /// Its number, from 1. A name at the path's begin is step 1, `$` is none.
    pub step: u64,
    pub reason: PathReason,
}
