ghost use Rattle.std.specs.Prelude.{◌≡◌, ◌+◌, ◌<◌, ◌^◌, None, Some, if◌then◌else◌, IfOk, IfSome, OnOk};
ghost use Rattle.pads_module.specs.Modules.{contents};
ghost use Rattle.pads_mask.specs.Masks.{fault_of, first_unknown as first_unknown_of, is_declared as is_declared_of, masked as masked_of, masked_decl as masked_decl_of, masked_decls as masked_decls_of};
ghost use Rattle.pads_forms.specs.Terms.{name_at};
ghost use Rattle.pads_mask.specs.Unguarded.{unguarded as unguarded_of};
ghost use Rattle.pads_erase.specs.Modes.{checks, mode_for};
ghost use Rattle.pads_value.specs.Refusals.{OnFault};

use crate::unguarded::unguarded;
use pads_calc::{Decl, Decls, Term};
use pads_erase::{Mask, Mode};
use pads_module::Module;
use pads_value::{Items, Memory, NameTable, Refusal};
use std::alloc::Global;

/// An item of a mask, counted from 1, that names no declaration.
#[derive(Clone, Copy, Debug, PartialEq, Eq)]
pub struct MaskFault {
    pub item: u64,
}

/// The name of a declaration.
fn name<'n>(names: &'n NameTable, decl: &Decl) -> &'n [u8]
    ensures name { result.now ≡ name_at names.now decl.now.name }
{
    names.at(decl.name).unwrap_or(b"")
}

/// Whether some declaration has this name.
fn is_declared(module: &Module, wanted: &[u8]) -> bool
    ensures declared { result ≡ is_declared_of (contents module.now) wanted.now }
{
    let mut decls = module.decls.as_slice().iter();
    decls.any(|decl| name(&module.names, decl) == wanted)
}

/// The place of the first item that names no declaration, counted from 0.
fn first_unknown(module: &Module, mask: &Mask) -> Option<usize>
    ensures first { result ≡ first_unknown_of (contents module.now) mask.now }
    ensures few { IfSome result (λ at. at < 2 ^ 63) }
{
    mask.named
        .as_slice()
        .iter()
        .position(|one| !is_declared(module, one.name.as_slice()))
}

/// The least item that names no declaration, counted from 1.
fn fault(module: &Module, mask: &Mask) -> Option<u64>
    ensures fault { result ≡ fault_of (contents module.now) mask.now }
{
    match first_unknown(module, mask) {
        None => None,
        Some(at) => Some(at as u64 + 1),
    }
}

/// The body of a declaration of this mode.
fn masked_body(alloc: Global, body: Term, mode: Mode) -> Result<Term, Memory>
    ensures body { IfOk result (λ made. made ≡ (if checks mode then body else unguarded_of body)) }
{
    if mode.checks() {
        Ok(body)
    } else {
        unguarded(alloc, body)
    }
}

/// A declaration of this mode.
fn masked_decl(alloc: Global, decl: Decl, mode: Mode) -> Result<Decl, Memory>
    ensures decl { IfOk result (λ made. made ≡ masked_decl_of mode decl) }
{
    let Decl {
        name,
        params,
        body,
        set,
    } = decl;
    let body = masked_body(alloc, body, mode)?;
    Ok(Decl {
        name,
        params,
        body,
        set: set && mode.keeps(),
    })
}

/// The declarations, each by the mode of its name.
fn masked_decls(
    alloc: Global,
    decls: Vec<Decl>,
    names: &NameTable,
    mask: &Mask,
) -> Result<Decls, Memory>
    ensures decls { IfOk result (λ made. made ≡ masked_decls_of names.now mask.now decls.items) }
{
    let mut made = Items::new(alloc);
    for decl in decls {
        let mode = mask.mode_for(name(names, &decl));
        made.push(masked_decl(alloc, decl, mode)?)?;
    }
    Ok(made)
}

/// The module under a mask. `MaskFault` exactly where an item of the mask names no declaration; the least
/// such. Declarations are moved and not copied.
pub fn mask_module(alloc: Global, whole: Module, mask: &Mask) -> Result<Module, Refusal<MaskFault>>
    ensures masked { IfOk result (λ made. contents made ≡ masked_of (contents whole) mask.now) }
    ensures named { OnOk result (fault_of (contents whole) mask.now ≡ None) }
    ensures fault { OnFault result (λ fault. fault_of (contents whole) mask.now ≡ Some fault.item) }
{
    if let Some(item) = fault(&whole, mask) {
        return Err(Refusal::Fault(MaskFault { item }));
    }
    let Module {
        decls,
        names,
        shape,
        scan,
        ..
    } = whole;
    let decls = masked_decls(alloc, decls.into_vec(), &names, mask)?;
    match Module::new(alloc, decls, names, shape) {
        Ok(mut made) => {
            made.bound_scan(scan);
            Ok(made)
        }
        Err(Refusal::Fault(_)) => unreachable!(),
        Err(Refusal::Memory) => Err(Refusal::Memory),
    }
}
