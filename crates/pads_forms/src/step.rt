/// The way from a node to one of its kids.
#[derive(Clone, Copy)]
pub enum Step<'m> {
    /// A named part of a struct, or a branch.
    Named(&'m [u8]),
    /// A part without a name by its number, from 0, all parts counted.
    Unnamed(u64),
    /// An element of an array by its number, from 0.
    Element(u64),
}
