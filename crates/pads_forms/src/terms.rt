use pads_calc::Decls;
use pads_value::NameTable;

/// What the terms of a module speak of: its declarations and its names.
#[derive(Clone, Copy)]
pub struct Terms<'m> {
    pub decls: &'m Decls,
    pub names: &'m NameTable,
}
