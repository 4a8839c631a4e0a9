//! The names that types and declarations give, met from the left.
ghost use Rattle.std.specs.Prelude.{◌≡◌, ◌++◌, ◌∷◌, [], map, OnOk};
ghost use Rattle.std.specs.List.{flat_map};
ghost use Rattle.pads_trans.specs.Met.{in_type, in_branch, in_part, in_where, in_struct, in_case, in_default, in_switch, in_union, in_array_option, in_array, in_constraint, in_typedef, in_body, in_read_body, in_decl};
ghost use Rattle.pads_trans.specs.Names.{some_name, none_name, with_names};

use crate::meet_expr::{meet_expr, meet_exprs, meet_option};
use crate::names::Names;
use pads_resolution::{
    Array, ArrayOption, Branch, Case, Constraint, Decl, DeclBody, Expr, Param, Part, Role, Struct,
    Switch, Type, Typedef, Union,
};
use pads_value::Memory;

/// The branches of an optional.
fn meet_optional(names: &mut Names) -> Result<(), Memory>
    ensures met { OnOk result (names.new ≡ with_names names.old (some_name ∷ none_name ∷ [])) }
{
    names.add(b"some")?;
    names.add(b"none")
}

#[tactic(auto, unfolding(crate::specs::Met::in_type))]
fn meet_type(names: &mut Names, of: &Type) -> Result<(), Memory>
    ensures met { OnOk result (names.new ≡ with_names names.old (in_type of.now)) }
{
    if of.optional {
        meet_optional(names)?;
        return meet_exprs(names, of.args.as_slice());
    }
    meet_exprs(names, of.args.as_slice())
}

#[tactic(auto, unfolding(crate::specs::Met::in_branch))]
fn meet_branch(names: &mut Names, branch: &Branch) -> Result<(), Memory>
    ensures met { OnOk result (names.new ≡ with_names names.old (in_branch branch.now)) }
{
    meet_type(names, &branch.of)?;
    names.add(branch.name.as_slice())?;
    meet_option(names, &branch.constraint)
}

fn meet_branches(names: &mut Names, branches: &[Branch]) -> Result<(), Memory>
    ensures met { OnOk result (names.new ≡ with_names names.old (flat_map in_branch branches.now)) }
{
    for branch in branches {
        meet_branch(names, branch)?;
    }
    Ok(())
}

#[tactic(auto, unfolding(crate::specs::Met::in_part))]
fn meet_part(names: &mut Names, part: &Part) -> Result<(), Memory>
    ensures met { OnOk result (names.new ≡ with_names names.old (in_part part.now)) }
{
    match part {
        Part::Literal(_) => Ok(()),
        Part::Pcompute { name, value, .. } => {
            names.add(name.as_slice())?;
            meet_expr(names, value)
        }
        Part::Field(field) => meet_branch(names, field),
    }
}

fn meet_parts(names: &mut Names, parts: &[Part]) -> Result<(), Memory>
    ensures met { OnOk result (names.new ≡ with_names names.old (flat_map in_part parts.now)) }
{
    for part in parts {
        meet_part(names, part)?;
    }
    Ok(())
}

/// The `Pwhere` of a struct.
#[tactic(auto, unfolding(crate::specs::Met::in_where))]
fn meet_where(names: &mut Names, condition: &Option<Expr>) -> Result<(), Memory>
    ensures met { OnOk result (names.new ≡ with_names names.old (in_where condition.now)) }
{
    match condition {
        None => Ok(()),
        Some(e) => {
            names.add(b"@")?;
            meet_expr(names, e)
        }
    }
}

#[tactic(auto, unfolding(crate::specs::Met::in_struct))]
fn meet_struct(names: &mut Names, body: &Struct) -> Result<(), Memory>
    ensures met { OnOk result (names.new ≡ with_names names.old (in_struct body.now)) }
{
    meet_parts(names, body.parts.as_slice())?;
    meet_where(names, &body.condition)
}

#[tactic(auto, unfolding(crate::specs::Met::in_case))]
fn meet_case(names: &mut Names, case: &Case) -> Result<(), Memory>
    ensures met { OnOk result (names.new ≡ with_names names.old (in_case case.now)) }
{
    meet_branch(names, &case.branch)
}

fn meet_cases(names: &mut Names, cases: &[Case]) -> Result<(), Memory>
    ensures met { OnOk result (names.new ≡ with_names names.old (flat_map in_case cases.now)) }
{
    for case in cases {
        meet_case(names, case)?;
    }
    Ok(())
}

#[tactic(auto, unfolding(crate::specs::Met::in_default))]
fn meet_default(names: &mut Names, default: &Option<Branch>) -> Result<(), Memory>
    ensures met { OnOk result (names.new ≡ with_names names.old (in_default default.now)) }
{
    match default {
        None => Ok(()),
        Some(branch) => meet_branch(names, branch),
    }
}

#[tactic(auto, unfolding(crate::specs::Met::in_switch))]
fn meet_switch(names: &mut Names, switch: &Switch) -> Result<(), Memory>
    ensures met { OnOk result (names.new ≡ with_names names.old (in_switch switch.now)) }
{
    meet_expr(names, &switch.value)?;
    meet_cases(names, switch.cases.as_slice())?;
    meet_default(names, &switch.default)
}

#[tactic(auto, unfolding(crate::specs::Met::in_union))]
fn meet_union(names: &mut Names, body: &Union) -> Result<(), Memory>
    ensures met { OnOk result (names.new ≡ with_names names.old (in_union body.now)) }
{
    match body {
        Union::Branches(branches) => meet_branches(names, branches.as_slice()),
        Union::Pswitch(switch) => meet_switch(names, switch),
    }
}

#[tactic(auto, unfolding(crate::specs::Met::in_array_option))]
fn meet_array_option(names: &mut Names, option: &ArrayOption) -> Result<(), Memory>
    ensures met { OnOk result (names.new ≡ with_names names.old (in_array_option option.now)) }
{
    match option {
        ArrayOption::Psep(_) => Ok(()),
        ArrayOption::Pterm(_) => Ok(()),
        ArrayOption::Plast(e) => meet_expr(names, e),
    }
}

fn meet_array_options(names: &mut Names, options: &[ArrayOption]) -> Result<(), Memory>
    ensures met { OnOk result (names.new ≡ with_names names.old (flat_map in_array_option options.now)) }
{
    for option in options {
        meet_array_option(names, option)?;
    }
    Ok(())
}

#[tactic(auto, unfolding(crate::specs::Met::in_array))]
fn meet_array(names: &mut Names, body: &Array) -> Result<(), Memory>
    ensures met { OnOk result (names.new ≡ with_names names.old (in_array body.now)) }
{
    meet_type(names, &body.of)?;
    names.add(b"@")?;
    meet_option(names, &body.size)?;
    meet_array_options(names, body.options.as_slice())?;
    meet_option(names, &body.condition)
}

#[tactic(auto, unfolding(crate::specs::Met::in_constraint))]
fn meet_constraint(names: &mut Names, constraint: &Option<Constraint>) -> Result<(), Memory>
    ensures met { OnOk result (names.new ≡ with_names names.old (in_constraint constraint.now)) }
{
    match constraint {
        None => Ok(()),
        Some(constraint) => {
            names.add(constraint.variable.as_slice())?;
            meet_expr(names, &constraint.condition)
        }
    }
}

#[tactic(auto, unfolding(crate::specs::Met::in_typedef))]
fn meet_typedef(names: &mut Names, body: &Typedef) -> Result<(), Memory>
    ensures met { OnOk result (names.new ≡ with_names names.old (in_typedef body.now)) }
{
    meet_type(names, &body.of)?;
    meet_constraint(names, &body.constraint)
}

#[tactic(auto, unfolding(crate::specs::Met::in_body))]
fn meet_body(names: &mut Names, body: &DeclBody) -> Result<(), Memory>
    ensures met { OnOk result (names.new ≡ with_names names.old (in_body body.now)) }
{
    match body {
        DeclBody::Struct(body) => meet_struct(names, body),
        DeclBody::Union(body) => meet_union(names, body),
        DeclBody::Array(body) => meet_array(names, body),
        DeclBody::Enum(_) => Ok(()),
        DeclBody::Typedef(body) => meet_typedef(names, body),
        DeclBody::Opt(of) => {
            meet_optional(names)?;
            meet_type(names, of)
        }
    }
}

/// The body of a declaration that is read.
#[tactic(auto, unfolding(crate::specs::Met::in_read_body))]
fn meet_read_body(names: &mut Names, role: Role, body: &DeclBody) -> Result<(), Memory>
    ensures met { OnOk result (names.new ≡ with_names names.old (in_read_body role body.now)) }
{
    match role {
        Role::Part => meet_body(names, body),
        Role::Precord => meet_body(names, body),
        Role::Source => Ok(()),
    }
}

fn meet_params(names: &mut Names, params: &[Param]) -> Result<(), Memory>
    ensures met { OnOk result (names.new ≡ with_names names.old (map (λ param. param.name) params.now)) }
{
    for param in params {
        names.add(param.name.as_slice())?;
    }
    Ok(())
}

#[tactic(auto, unfolding(crate::specs::Met::in_decl))]
fn meet_decl(names: &mut Names, decl: &Decl) -> Result<(), Memory>
    ensures met { OnOk result (names.new ≡ with_names names.old (in_decl decl.now)) }
{
    names.add(decl.name.as_slice())?;
    meet_params(names, decl.params.as_slice())?;
    meet_read_body(names, decl.role, &decl.body)
}

/// The names of declarations in their order.
pub(crate) fn meet_decls(names: &mut Names, decls: &[Decl]) -> Result<(), Memory>
    ensures met { OnOk result (names.new ≡ with_names names.old (flat_map in_decl decls.now)) }
{
    for decl in decls {
        meet_decl(names, decl)?;
    }
    Ok(())
}
