ghost use Rattle.std.specs.Prelude.{◌≡◌, drop, IfOk, option_map, slice_get};
ghost use Rattle.pads_nodes.specs.Found.{lent};
ghost use Rattle.pads_nodes.specs.Nodes as nodes;

use crate::Steps;
use crate::nodes::{Found, row_nodes};
use pads_value::{Memory, Pd, Row, Val};
use std::alloc::Global;
use std::marker::Model;

/// The nodes of a row that the steps of a path lead to, in document order. Contracts see it as the list of the
/// nodes that are still to come, each as its value and its descriptor.
#[derive(Drop)]
pub struct Cursor<'r> {
    /// The last first.
    found: Vec<Found<'r>>,
}

impl<'r> Model for Cursor<'r> {
    ghost use Rattle.std.specs.Prelude.{List, reverse};
    ghost use Rattle.std.specs.Coded.{codes};
    ghost use Rattle.pads_value.specs.contracts.descriptor.Pd as pd;
    ghost use Rattle.pads_value.specs.contracts.value.Val as val;
    ghost use Rattle.pads_nodes.specs.Found.{all_seen};
    ghost use Rattle.pads_nodes.specs.Nodes.{Node};

    ghost Value = { List Node };

    ghost coded = { Prim.hlevel (codes, val.the_row.coded, pd.the_row.coded) };

    ghost view = { λ cursor. reverse (all_seen cursor.found.items) };
}

impl<'r> Cursor<'r> {
    /// The nodes that steps lead to from the body of a record.
    #[tactic(auto, using(std::proofs::lemmas::Grind::common_steps, crate::proofs::NodeLaws::turned))]
    pub fn new(alloc: Global, steps: &Steps, row: &'r Row) -> Result<Cursor<'r>, Memory>
        ensures nodes { IfOk result (λ cursor. cursor ≡ nodes.row_nodes steps.now row.now) }
    {
        let mut found = row_nodes(alloc, steps.as_slice(), row)?;
        found.reverse();
        Ok(Cursor { found })
    }

    /// The next node, its value and its descriptor; `None` exactly where there is none left. It takes no memory.
    pub fn next(&mut self) -> Option<(&'r Val, &'r Pd)>
        ensures next { option_map lent result ≡ slice_get self.old 0 }
        ensures rest { self.new ≡ drop 1 self.old }
    {
        let found = self.found.pop()?;
        Some((found.value, found.pd))
    }
}
