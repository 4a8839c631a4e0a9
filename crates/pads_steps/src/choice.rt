ghost use Rattle.std.specs.List.{position};
ghost use Rattle.std.specs.Option.{option_copied};
ghost use Rattle.std.specs.Prelude.{◌≡◌, map, reverse, Option, Some, IfOk};
ghost use Rattle.pads_calc.specs.declared.term.Key.{Key};
ghost use Rattle.pads_calc.specs.Arguments.{argument as argument_of};
ghost use Rattle.pads_calc.specs.Choices.{is_key as is_key_of, has_key as has_key_of, has_no_key, chosen as chosen_of};

use crate::args::argument_in;
use pads_calc::{Arg, Case, Key};
use pads_expr::{Binding, Env, Expr};
use pads_value::Memory;
use std::alloc::Global;

/// Whether an argument equals a key.
fn is_key(found: &Arg, key: &Key) -> bool
    ensures same { result ≡ is_key_of found.now key.now }
{
    match (found, key) {
        (Arg::Num(number), Key::Num(wanted)) => *number == *wanted,
        (Arg::Text(text), Key::Text(wanted)) => text.as_slice() == wanted.as_slice(),
        _ => false,
    }
}

/// What a key may choose.
pub trait Keyed {
    // Its key, if it has one.
    ghost key_of: { Self → Option Key };

    /// The key that chooses it, if it has one.
    fn key(&self) -> Option<&Key>
        ensures key { option_copied result ≡ key_of self.now };
}

impl Keyed for Case {
    ghost key_of = { λ c. c.key };

    fn key(&self) -> Option<&Key> {
        self.key.as_ref()
    }
}

/// Whether this is a case's key.
fn has_key(found: &Arg, key: Option<&Key>) -> bool
    ensures key { result ≡ has_key_of found.now (option_copied key.entry) }
{
    match key {
        None => false,
        Some(key) => is_key(found, key),
    }
}

/// The first case with this key.
fn with_key<C: Keyed>(found: &Arg, cases: &[C]) -> Option<usize>
    ensures first { result ≡ position (λ c. has_key_of found.now (C.key_of c)) cases.now }
{
    cases.iter().position(|case| has_key(found, case.key()))
}

/// The first case without a key.
fn without_key<C: Keyed>(cases: &[C]) -> Option<usize>
    ensures first { result ≡ position (λ c. has_no_key (C.key_of c)) cases.now }
{
    cases.iter().position(|case| case.key().is_none())
}

/// The first case with this key, else the first without a key.
#[tactic(auto, using(crate::proofs::Positions::positions))]
fn chosen_by<C: Keyed>(found: &Arg, cases: &[C]) -> Option<usize>
    ensures chosen { result ≡ chosen_of (Some found.now) (map C.key_of cases.now) }
{
    match with_key(found, cases) {
        Some(number) => Some(number),
        None => without_key(cases),
    }
}

/// The number of the case that an expression's value chooses over bindings of which the last counts, if
/// there is one.
pub fn chosen_in<C: Keyed>(
    alloc: Global,
    e: &Expr,
    bindings: &[Binding],
    cases: &[C],
) -> Result<Option<usize>, Memory>
    ensures chosen { IfOk result (λ number. number ≡ chosen_of (argument_of e.now (reverse bindings.now)) (map C.key_of cases.now)) }
{
    match argument_in(alloc, e, bindings)? {
        None => Ok(None),
        Some(found) => Ok(chosen_by(&found, cases)),
    }
}

/// The same in an environment.
pub fn chosen(alloc: Global, e: &Expr, env: &Env, cases: &[Case]) -> Result<Option<usize>, Memory>
    ensures chosen { IfOk result (λ number. number ≡ chosen_of (argument_of e.now env.now.pairs) (map (λ c. c.key) cases.now)) }
{
    chosen_in(alloc, e, env.as_slice(), cases)
}
