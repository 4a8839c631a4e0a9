//! Source shapes.

ghost use Rattle.std.specs.Prelude.{◌≡◌};
ghost use Rattle.pads_rules.specs.PieceRules as rules;
ghost use Rattle.pads_rules.specs.Resolving as resolving;
ghost use Rattle.pads_piece_rules.specs.Told.{stands};

use crate::Site;
use crate::site::sight;
use pads_ast::{DeclBody, Part};
use pads_declared::{
    Sight, is_precord_type, is_psource, is_record_list, is_record_list_type, params_of,
    plain_meaning,
};

/// Whether a part is a field of a `Precord` type without a constraint.
fn is_header(types: &Sight<'_>, part: &Part) -> bool
    ensures header { result ≡ rules.is_plain_field types.now resolving.is_precord_type part.now }
{
    match part {
        Part::Field(branch) => {
            branch.constraint.is_none() && is_precord_type(plain_meaning(types, &branch.of))
        }
        _ => false,
    }
}

/// Whether a part is a field of a record list without a constraint.
fn is_list(types: &Sight<'_>, part: &Part) -> bool
    ensures list { result ≡ rules.is_plain_field types.now resolving.is_record_list_type part.now }
{
    match part {
        Part::Field(branch) => {
            branch.constraint.is_none() && is_record_list_type(plain_meaning(types, &branch.of))
        }
        _ => false,
    }
}

fn are_header_and_list(types: &Sight<'_>, parts: &[Part]) -> bool
    ensures both { result ≡ rules.are_header_and_list types.now parts.now }
{
    if parts.len() != 2 {
        return false;
    }
    is_header(types, &parts[0]) && is_list(types, &parts[1])
}

/// Whether a declaration is a struct of a header and a record list, and nothing else.
fn is_header_shape(types: &Sight<'_>, body: &DeclBody) -> bool
    ensures shape { result ≡ rules.is_header_shape types.now body.now }
{
    let bare = params_of(body).is_empty();
    match body {
        DeclBody::Struct(d) => {
            bare && d.condition.is_none() && are_header_and_list(types, d.parts.as_slice())
        }
        _ => false,
    }
}

/// Whether a declaration is a source shape.
pub fn is_source_shape(site: &Site<'_>) -> bool
    ensures shape { result ≡ rules.is_source_shape (stands site.now) }
{
    let types = sight(site);
    let list = is_record_list(&types, site.decl);
    let header = is_header_shape(&types, &site.decl.body);
    list || is_psource(site.decl.mark) && header
}
