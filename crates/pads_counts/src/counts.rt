//! The rule that counts.

ghost use Rattle.std.specs.Prelude.{◌≡◌, IfOk};
ghost use Rattle.pads_rules.specs.DeclRules as rules;
ghost use Rattle.pads_rules.specs.Faults.{least};
ghost use Rattle.pads_piece_rules.specs.Told.{stands};

use crate::in_scope::too_many_in_scope;
use crate::parts::part_count;
use pads_declared::name_of;
use pads_piece_rules::Site;
use pads_rules::{CheckFault, Rule, fault_if};
use pads_value::Memory;
use std::alloc::Global;

/// A declaration that has too many parts or names in scope, comes too late, or ends where the description has too
/// many different names; `names` is how many these are.
pub fn too_much(alloc: Global, site: &Site<'_>, names: u64) -> Result<Option<CheckFault>, Memory>
    requires names { names ≡ rules.token_count (stands site.now) }
    ensures told { IfOk result (λ fault. fault ≡ least (rules.too_much (stands site.now))) }
{
    let body = &site.decl.body;
    let scope = too_many_in_scope(alloc, body)?;
    let late = 4096 <= site.number;
    let parts = 4096 < part_count(body);
    let many = 65000 < names;
    Ok(fault_if(
        late || parts || scope || many,
        Rule::Limit,
        name_of(body).at,
    ))
}
