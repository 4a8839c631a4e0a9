//! The rules that look at one name.

ghost use Rattle.std.specs.Prelude.{◌≡◌, ◌<◌, length};
ghost use Rattle.pads_rules.specs.DeclRules as rules;
ghost use Rattle.pads_rules.specs.Faults.{least};
ghost use Rattle.pads_piece_rules.specs.Told.{stands};

use pads_ast::DeclBody;
use pads_base_names::base_name;
use pads_declared::{is_precord, is_precursive, is_psource, name_of, params_of, same_text};
use pads_piece_rules::{Site, is_source_shape};
use pads_rules::{CheckFault, Rule, fault_if};

/// The name is an earlier declaration's or a base type's.
pub(crate) fn name_taken(site: &Site<'_>) -> Option<CheckFault>
    ensures told { result ≡ least (rules.name_taken (stands site.now)) }
{
    let name = name_of(&site.decl.body);
    let declared = site.env.declares_before(site.number, name.text.as_slice());
    let base = base_name(name.text.as_slice()).is_some();
    fault_if(declared || base, Rule::NameTaken, name.at)
}

/// The first name behind a typedef's colon isn't its own.
pub(crate) fn other_name(site: &Site<'_>) -> Option<CheckFault>
    ensures told { result ≡ least (rules.other_name (stands site.now)) }
{
    let DeclBody::Typedef(d) = &site.decl.body else {
        return None;
    };
    match &d.constraint {
        None => None,
        Some(constraint) => {
            let same = same_text(constraint.name.text.as_slice(), d.name.text.as_slice());
            fault_if(!same, Rule::OtherName, constraint.name.at)
        }
    }
}

/// A `Precord` or `Psource` declaration has parameters.
pub(crate) fn marked_with_params(site: &Site<'_>) -> Option<CheckFault>
    ensures told { result ≡ least (rules.marked_with_params (stands site.now)) }
{
    let bare = params_of(&site.decl.body).is_empty();
    let marked = is_precord(site.decl.mark) || is_psource(site.decl.mark);
    fault_if(
        marked && !bare,
        Rule::MarkedWithParameters,
        name_of(&site.decl.body).at,
    )
}

/// A `Psource` declaration isn't the last, or isn't a source shape.
pub(crate) fn misplaced_source(site: &Site<'_>) -> Option<CheckFault>
    requires { site.now.number < length site.now.decls.now }
    ensures told { result ≡ least (rules.misplaced_source (stands site.now)) }
{
    let source = is_psource(site.decl.mark);
    let last = site.number == site.decls.len() - 1;
    let shape = is_source_shape(site);
    fault_if(
        source && !(last && shape),
        Rule::MisplacedSource,
        name_of(&site.decl.body).at,
    )
}

/// Whether a declaration is of a form that may be marked `Precursive`.
fn may_recur(body: &DeclBody) -> bool
    ensures may { result ≡ rules.may_recur body.now }
{
    match body {
        DeclBody::Struct(_) | DeclBody::Union(_) | DeclBody::Array(_) => true,
        DeclBody::Enum(_) | DeclBody::Typedef(_) | DeclBody::Opt(_) => false,
    }
}

/// `Precursive` stands before another form than a struct, a union or an array.
pub(crate) fn misplaced_precursive(site: &Site<'_>) -> Option<CheckFault>
    ensures told { result ≡ least (rules.misplaced_precursive (stands site.now)) }
{
    let marked = is_precursive(site.decl.mark);
    let fits = may_recur(&site.decl.body);
    fault_if(
        marked && !fits,
        Rule::MisplacedPrecursive,
        name_of(&site.decl.body).at,
    )
}
