//! The names of declarations.
#![tactic(auto, using(crate::proofs::MetLaws::met_laws))]

ghost use Rattle.std.specs.Prelude.{◌≡◌, ◌++◌, map, flat_map, OnOk};
ghost use Rattle.pads_ast.specs.declared.decl.DeclBody.TheVariants as decl;
ghost use Rattle.pads_ast.specs.declared.decl.UnionBody.TheVariants as union;
ghost use Rattle.pads_ast.specs.NameTokens as tokens;
ghost use Rattle.pads_ast.specs.Trees.{listed};
ghost use Rattle.pads_counts.specs.Met.{met};

use crate::in_expr::{meet_expr, meet_name};
use pads_ast::{
    Arg, Array, ArrayOption, Branch, Case, Constraint, DeclBody, Expr, Label, Param, Part, Struct,
    Switch, Type, Typedef, UnionBody,
};
use pads_declared::{NameSet, name_of, params_of};
use pads_value::Memory;

fn meet_option(names: &mut NameSet, e: &Option<Expr>) -> Result<(), Memory>
    ensures met { OnOk result (names.new ≡ met names.old (tokens.names_in_option e.now)) }
{
    match e {
        None => Ok(()),
        Some(e) => meet_expr(names, e),
    }
}

fn meet_arg(names: &mut NameSet, arg: &Arg) -> Result<(), Memory>
    ensures met { OnOk result (names.new ≡ met names.old (tokens.names_in_arg arg.now)) }
{
    match arg {
        Arg::Expr(e) => meet_expr(names, e),
        Arg::Peor { .. } => Ok(()),
    }
}

fn meet_args(names: &mut NameSet, args: &[Arg]) -> Result<(), Memory>
    ensures met { OnOk result (names.new ≡ met names.old (flat_map tokens.names_in_arg args.now)) }
{
    for arg in args {
        meet_arg(names, arg)?;
    }
    Ok(())
}

fn meet_type(names: &mut NameSet, of: &Type) -> Result<(), Memory>
    ensures met { OnOk result (names.new ≡ met names.old (tokens.names_in_type of.now)) }
{
    meet_name(names, &of.name)?;
    match &of.args {
        None => Ok(()),
        Some(args) => meet_args(names, args.as_slice()),
    }
}

fn meet_param(names: &mut NameSet, param: &Param) -> Result<(), Memory>
    ensures met { OnOk result (names.new ≡ met names.old (tokens.names_in_param param.now)) }
{
    meet_type(names, &param.of)?;
    meet_name(names, &param.name)
}

fn meet_params(names: &mut NameSet, params: &[Param]) -> Result<(), Memory>
    ensures met { OnOk result (names.new ≡ met names.old (flat_map tokens.names_in_param params.now)) }
{
    for param in params {
        meet_param(names, param)?;
    }
    Ok(())
}

fn meet_branch(names: &mut NameSet, branch: &Branch) -> Result<(), Memory>
    ensures met { OnOk result (names.new ≡ met names.old (tokens.names_in_branch branch.now)) }
{
    meet_type(names, &branch.of)?;
    meet_name(names, &branch.name)?;
    meet_option(names, &branch.constraint)
}

fn meet_branches(names: &mut NameSet, branches: &[Branch]) -> Result<(), Memory>
    ensures met { OnOk result (names.new ≡ met names.old (flat_map tokens.names_in_branch branches.now)) }
{
    for branch in branches {
        meet_branch(names, branch)?;
    }
    Ok(())
}

fn meet_part(names: &mut NameSet, part: &Part) -> Result<(), Memory>
    ensures met { OnOk result (names.new ≡ met names.old (tokens.names_in_part part.now)) }
{
    match part {
        Part::Literal(_) => Ok(()),
        Part::Pcompute { of, name, value } => {
            meet_type(names, of)?;
            meet_name(names, name)?;
            meet_expr(names, value)
        }
        Part::Field(branch) => meet_branch(names, branch),
    }
}

fn meet_parts(names: &mut NameSet, parts: &[Part]) -> Result<(), Memory>
    ensures met { OnOk result (names.new ≡ met names.old (flat_map tokens.names_in_part parts.now)) }
{
    for part in parts {
        meet_part(names, part)?;
    }
    Ok(())
}

fn meet_struct(names: &mut NameSet, d: &Struct) -> Result<(), Memory>
    ensures met { OnOk result (names.new ≡ met names.old (flat_map tokens.names_in_part d.now.parts ++ tokens.names_in_option d.now.condition)) }
{
    meet_parts(names, d.parts.as_slice())?;
    meet_option(names, &d.condition)
}

fn meet_cases(names: &mut NameSet, cases: &[Case]) -> Result<(), Memory>
    ensures met { OnOk result (names.new ≡ met names.old (flat_map (λ case. tokens.names_in_branch case.branch) cases.now)) }
{
    for case in cases {
        meet_branch(names, &case.branch)?;
    }
    Ok(())
}

fn meet_default(names: &mut NameSet, default: &Option<Branch>) -> Result<(), Memory>
    ensures met { OnOk result (names.new ≡ met names.old (flat_map tokens.names_in_branch (listed default.now))) }
{
    match default {
        None => Ok(()),
        Some(branch) => meet_branch(names, branch),
    }
}

fn meet_switch(names: &mut NameSet, switch: &Switch) -> Result<(), Memory>
    ensures met { OnOk result (names.new ≡ met names.old (tokens.names_in_union (union.Switch switch.now))) }
{
    meet_expr(names, &switch.value)?;
    meet_cases(names, switch.cases.as_slice())?;
    meet_default(names, &switch.default)
}

fn meet_union(names: &mut NameSet, body: &UnionBody) -> Result<(), Memory>
    ensures met { OnOk result (names.new ≡ met names.old (tokens.names_in_union body.now)) }
{
    match body {
        UnionBody::Branches(branches) => meet_branches(names, branches.as_slice()),
        UnionBody::Switch(switch) => meet_switch(names, switch),
    }
}

fn meet_array_option(names: &mut NameSet, option: &ArrayOption) -> Result<(), Memory>
    ensures met { OnOk result (names.new ≡ met names.old (tokens.names_in_array_option option.now)) }
{
    match option {
        ArrayOption::Psep { .. } | ArrayOption::Pterm { .. } => Ok(()),
        ArrayOption::Plast { condition, .. } => meet_expr(names, condition),
    }
}

fn meet_array_options(names: &mut NameSet, options: &[ArrayOption]) -> Result<(), Memory>
    ensures met { OnOk result (names.new ≡ met names.old (flat_map tokens.names_in_array_option options.now)) }
{
    for option in options {
        meet_array_option(names, option)?;
    }
    Ok(())
}

fn meet_array(names: &mut NameSet, d: &Array) -> Result<(), Memory>
    ensures met { OnOk result (names.new ≡ met names.old (tokens.names_in_body (decl.Array d.now))) }
{
    meet_type(names, &d.of)?;
    meet_option(names, &d.size)?;
    meet_array_options(names, d.options.as_slice())?;
    meet_option(names, &d.condition)
}

fn meet_labels(names: &mut NameSet, labels: &[Label]) -> Result<(), Memory>
    ensures met { OnOk result (names.new ≡ met names.old (map (λ label. label.name.text) labels.now)) }
{
    for label in labels {
        meet_name(names, &label.name)?;
    }
    Ok(())
}

fn meet_constraint(names: &mut NameSet, constraint: &Option<Constraint>) -> Result<(), Memory>
    ensures met { OnOk result (names.new ≡ met names.old (flat_map tokens.names_in_constraint (listed constraint.now))) }
{
    match constraint {
        None => Ok(()),
        Some(constraint) => {
            meet_name(names, &constraint.name)?;
            meet_name(names, &constraint.variable)?;
            meet_expr(names, &constraint.condition)
        }
    }
}

fn meet_typedef(names: &mut NameSet, d: &Typedef) -> Result<(), Memory>
    ensures met { OnOk result (names.new ≡ met names.old (tokens.names_in_body (decl.Typedef d.now))) }
{
    meet_type(names, &d.of)?;
    meet_constraint(names, &d.constraint)
}

fn meet_body(names: &mut NameSet, body: &DeclBody) -> Result<(), Memory>
    ensures met { OnOk result (names.new ≡ met names.old (tokens.names_in_body body.now)) }
{
    match body {
        DeclBody::Struct(d) => meet_struct(names, d),
        DeclBody::Union(d) => meet_union(names, &d.body),
        DeclBody::Array(d) => meet_array(names, d),
        DeclBody::Enum(d) => meet_labels(names, d.labels.as_slice()),
        DeclBody::Typedef(d) => meet_typedef(names, d),
        DeclBody::Opt(d) => meet_type(names, &d.of),
    }
}

/// Adds the names that a declaration is written with to those of the declarations before it.
pub fn meet_decl(names: &mut NameSet, body: &DeclBody) -> Result<(), Memory>
    ensures met { OnOk result (names.new ≡ met names.old (tokens.names_in_decl body.now)) }
{
    meet_name(names, name_of(body))?;
    meet_params(names, params_of(body))?;
    meet_body(names, body)
}
