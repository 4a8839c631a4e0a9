ghost use Rattle.std.specs.Coded.{Coded-set, coded_list};
ghost use Rattle.std.specs.Prelude.{◌≡◌};
ghost use Rattle.pads_image.specs.Code.{code_of, entries_of};
ghost use Rattle.pads_image.specs.contracts.entry.Entry as entry;
ghost use Rattle.pads_image.specs.contracts.op.Op as op;

use crate::ending::Ending;
use crate::reason::Reason;
use pads_compile::compile;
use pads_image::Image;
use pads_machine::Machine;
use pads_module::Module;
use pads_value::{Frame, Memory, Refusal, Row};
use std::alloc::Global;

/// What records are read by: a module and its image. Workers share it, and each has a machine of its own.
#[derive(Drop)]
pub(crate) struct Reader {
    pub(crate) module: Module,
    pub(crate) image: Image,
    pub(crate) ghost code: { image.code ≡ code_of module.decls } by { Coded-set (coded_list op.the_row.coded) image.code (code_of module.decls) },
    pub(crate) ghost entries: { image.entries ≡ entries_of module.decls } by { Coded-set (coded_list entry.the_row.coded) image.entries (entries_of module.decls) },
    pub(crate) ghost shape: { image.shape ≡ module.shape },
    pub(crate) ghost scan: { image.scan ≡ module.scan },
}

impl Reader {
    ghost use Rattle.std.specs.Prelude.{◌≤◌, IfOk, IfErr};
    ghost use Rattle.pads_module.specs.Modules.{contents};
    ghost use Rattle.pads_orders.specs.Orders.{greatest_scan};
    ghost use Rattle.pads_tool.specs.Describing.{row_in};
    ghost use Rattle.pads_tool.specs.Images.{HasImage, IsImageFault};
    ghost use Rattle.pads_tool.specs.Masking.{bounded as bounded_by};
    ghost use Rattle.pads_tool.specs.Texts.{StopsFor};
    ghost use Rattle.pads_value.specs.Cuts.{cut_of_frame};

    /// What reads by a module, or how the run ends without it.
    pub(crate) fn new(alloc: Global, made: Module) -> Result<Reader, Ending>
        ensures made { IfOk result (λ reader. contents reader.module ≡ contents made) }
        ensures small { IfOk result (λ reader. HasImage (contents reader.module)) }
        ensures stops { IfErr result (StopsFor (IsImageFault (contents made))) }
    {
        let image = match compile(alloc, &made) {
            Ok(image) => image,
            Err(Refusal::Fault(_)) => return Err(Ending::Refused(Reason::ImageTooLarge)),
            Err(Refusal::Memory) => return Err(Ending::Memory),
        };
        Ok(Reader {
            module: made,
            image,
        })
    }

    /// The same by a module in which a search passes over so many bytes at most.
    pub(crate) fn bounded(alloc: Global, made: Module, scan: u32) -> Result<Reader, Ending>
        requires scan { scan ≤ greatest_scan }
        ensures made { IfOk result (λ reader. contents reader.module ≡ bounded_by scan (contents made)) }
        ensures small { IfOk result (λ reader. HasImage (contents reader.module)) }
        ensures stops { IfErr result (StopsFor (IsImageFault (contents made))) }
    {
        let mut made = made;
        made.bound_scan(scan);
        Reader::new(alloc, made)
    }

    /// A machine with room for the image.
    pub(crate) fn machine(&self, alloc: Global) -> Result<Machine, Memory>
        ensures room { IfOk result (λ machine. self.now.image.need ≤ machine) }
    {
        Machine::new(alloc, &self.image)
    }

    /// The row of the record of this number in a frame.
    pub(crate) fn read(
        &self,
        alloc: Global,
        machine: &mut Machine,
        number: u64,
        frame: &Frame,
    ) -> Result<Row, Memory>
        requires room { self.now.image.need ≤ machine.old }
        ensures row { IfOk result (λ row. row ≡ row_in (contents self.now.module) number (cut_of_frame frame.now)) }
        ensures room { machine.new ≡ machine.old }
    {
        machine.read_record(alloc, &self.image, number, frame)
    }
}
