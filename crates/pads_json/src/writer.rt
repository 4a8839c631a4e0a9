//! Lines behind what stands in the caller's bytes.

ghost use Rattle.std.specs.Prelude.{◌≡◌, ◌++◌, OnOk};
ghost use Rattle.pads_json.specs.Lines.{row_line};
ghost use Rattle.pads_json.specs.NodeLines.{node_text};

use crate::line::write_line;
use crate::node::write_node_line;
use crate::orders::{KeyedTerms, LineKeys};
use pads_forms::Terms;
use pads_module::Module;
use pads_nodes::Steps;
use pads_value::{Bytes, Memory, Pd, Row, Val};
use std::alloc::Global;

impl LineKeys {
    /// Writes the line that tells of a record: an object of its class, its faults, their number, the offset at which
    /// the reading of its value ended, its number, its extent and its value, and a newline. The only refusal is want of
    /// memory.
    pub fn write_record(
        &self,
        alloc: Global,
        description: &Module,
        out: &mut Bytes,
        row: &Row,
    ) -> Result<(), Memory>
        requires keys { self.now ≡ description.now.names }
        ensures line { OnOk result (out.new ≡ out.old ++ row_line description.now row.now) }
    {
        let terms = KeyedTerms {
            bare: Terms {
                decls: &description.decls,
                names: &description.names,
            },
            keys: self,
        };
        write_line(alloc, &terms, out, description.shape, row)
    }

    /// Writes the line that tells of a node of a path: an object of its class, the number of its faults, its record's
    /// number, its extent and its value, and a newline. The value is shown by the term to which the steps lead from the
    /// body of the module's record type. The only refusal is want of memory.
    pub fn write_node(
        &self,
        alloc: Global,
        description: &Module,
        out: &mut Bytes,
        steps: &Steps,
        record_number: u64,
        value: &Val,
        pd: &Pd,
    ) -> Result<(), Memory>
        requires keys { self.now ≡ description.now.names }
        ensures line { OnOk result (out.new ≡ out.old ++ node_text description.now steps.now record_number value.now pd.now) }
    {
        let terms = KeyedTerms {
            bare: Terms {
                decls: &description.decls,
                names: &description.names,
            },
            keys: self,
        };
        let each = description.shape.each;
        let steps = steps.as_slice();
        write_node_line(alloc, &terms, out, each, steps, record_number, value, pd)
    }
}
