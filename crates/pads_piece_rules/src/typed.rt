//! The rules on type names.

ghost use Rattle.std.specs.Prelude.{◌≡◌};
ghost use Rattle.pads_piece_rules.specs.Told.{stands, name_told, count_told, record_told};

use crate::Site;
use crate::base_rules::{args_of, is_count_of, is_undeclared};
use crate::shapes::is_source_shape;
use crate::site::{is_declared, meaning_at};
use pads_ast::Type;
use pads_declared::{is_precord_type, is_record_list_type};
use pads_rules::{CheckFault, Rule, fault_if};

/// A name that means nothing where it stands: that of this or a later declaration, or none's.
#[tactic(auto, unfolding(crate::specs::Told::name_told, pads_rules::specs::Faults::lesser))]
pub(crate) fn type_name(site: &Site<'_>, of: &Type) -> Option<CheckFault>
    ensures told { result ≡ name_told (stands site.now) of.now }
{
    if !is_undeclared(meaning_at(site, of)) {
        return None;
    }
    let rule = if is_declared(site, of) {
        Rule::LaterType
    } else {
        Rule::UnknownType
    };
    Some(CheckFault {
        at: of.name.at,
        rule,
    })
}

/// A number of arguments that isn't the type's.
#[tactic(auto, unfolding(crate::specs::Told::count_told))]
pub(crate) fn argument_count(site: &Site<'_>, of: &Type) -> Option<CheckFault>
    ensures told { result ≡ count_told (stands site.now) of.now }
{
    let fits = is_count_of(meaning_at(site, of), args_of(of).len());
    fault_if(!fits, Rule::ArgumentCount, of.name.at)
}

/// A record type or a record list named outside a source shape.
#[tactic(auto, unfolding(crate::specs::Told::record_told))]
pub(crate) fn record_name(site: &Site<'_>, of: &Type) -> Option<CheckFault>
    ensures told { result ≡ record_told (stands site.now) of.now }
{
    let meaning = meaning_at(site, of);
    let record = is_precord_type(meaning);
    let list = is_record_list_type(meaning);
    if !record && !list {
        return None;
    }
    fault_if(!is_source_shape(site), Rule::RecordTypeNamed, of.name.at)
}
