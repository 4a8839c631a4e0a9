//! Lists, descriptors and rows. A maker takes what other makers give, want of memory too.
use pads_value::{Boxed, Cause, Items, Memory, Own, Pd, Pds, Row, Span, Val};
use std::alloc::Global;

/// What a maker gives.
pub(crate) type Made<T> = Result<T, Memory>;

/// A list with one item more.
fn and<T: Drop>(list: Items<T>, item: Made<T>) -> Made<Items<T>> {
    let mut list = list;
    list.push(item?)?;
    Ok(list)
}

/// A list of one item.
pub(crate) fn one<T: Drop>(alloc: Global, item: Made<T>) -> Made<Items<T>> {
    and(Items::new(alloc), item)
}

/// A list of two items.
pub(crate) fn two<T: Drop>(alloc: Global, first: Made<T>, second: Made<T>) -> Made<Items<T>> {
    and(one(alloc, first)?, second)
}

/// An item on the heap.
pub(crate) fn boxed<T: Drop>(alloc: Global, item: Made<T>) -> Made<Boxed<T>> {
    Boxed::new(alloc, item?)
}

/// A descriptor from one byte to another, with or without a cause of its own.
pub(crate) fn node(cause: Option<Cause>, begin: u64, end: u64, kids: Made<Pds>) -> Made<Pd> {
    let own = match cause {
        Some(cause) => Some(Own {
            cause,
            fails: false,
        }),
        None => None,
    };
    Ok(Pd::of(own, Span { begin, end }, kids?))
}

/// A descriptor of no kids.
pub(crate) fn leaf(alloc: Global, cause: Option<Cause>, begin: u64, end: u64) -> Made<Pd> {
    node(cause, begin, end, Ok(Items::new(alloc)))
}

/// The row of record 2, from byte 4 to byte 9, whose body has this value and this descriptor.
pub(crate) fn row(alloc: Global, value: Made<Val>, body: Made<Pd>) -> Made<Row> {
    Ok(Row {
        number: 2,
        value: value?,
        pd: node(None, 4, 9, one(alloc, body))?,
        next: 9,
    })
}
