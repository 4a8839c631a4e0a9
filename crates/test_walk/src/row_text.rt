//! A row as a short text: its value, its record node and the place where its reading ended, with ` | `
//! between them. A value is `_` (Unit), `-` (Missing), a number, a text in quotes, `#n` (label number n),
//! `(..)` (a struct), `n:..` (branch number n) or `[..]` (an array). A node is its class, its own cause, if
//! it has one, its count and its span, and then its kids in braces.
use crate::line::Line;
use pads_value::{Class, Pd, Row, Val};

/// Adds a row: its value, its record node and the place where its reading ended.
pub(crate) fn put_row(out: &mut Line, row: &Row) {
    put_value(out, &row.value);
    out.put(" | ");
    put_node(out, &row.pd);
    out.put(" | ");
    out.put_number(row.next.into());
}

#[cycle(value)]
fn put_value(out: &mut Line, value: &Val) {
    match value {
        Val::Unit => out.put("_"),
        Val::Missing => out.put("-"),
        Val::Num(number) => out.put_number(*number),
        Val::Text(text) => out.put_quoted(text.as_slice()),
        Val::Enum(label) => {
            out.put("#");
            out.put_number((*label).into());
        }
        Val::Tuple(parts) => {
            out.put("(");
            put_values(out, parts.as_slice());
            out.put(")");
        }
        Val::Branch(number, inner) => {
            out.put_number((*number).into());
            out.put(":");
            put_value(out, inner.get());
        }
        Val::Array(elements) => {
            out.put("[");
            put_values(out, elements.as_slice());
            out.put("]");
        }
    }
}

#[cycle(value)]
fn put_values(out: &mut Line, values: &[Val]) {
    for (at, value) in values.iter().enumerate() {
        out.put_between(at, ",");
        put_value(out, value);
    }
}

fn class_name(class: Class) -> &'static str {
    match class {
        Class::Ok => "Ok",
        Class::Err => "Err",
        Class::Fail => "Fail",
    }
}

/// A node without its kids.
fn put_header(out: &mut Line, pd: &Pd) {
    out.put(class_name(pd.class));
    if let Some(cause) = pd.cause {
        out.put(" ");
        out.put(cause.name());
    }
    out.put(" ");
    out.put_number(pd.nerr.into());
    out.put(" ");
    out.put_number(pd.span.begin.into());
    out.put("-");
    out.put_number(pd.span.end.into());
}

#[cycle(node)]
fn put_node(out: &mut Line, pd: &Pd) {
    put_header(out, pd);
    if !pd.kids.is_empty() {
        out.put("{");
        put_nodes(out, pd.kids.as_slice());
        out.put("}");
    }
}

#[cycle(node)]
fn put_nodes(out: &mut Line, nodes: &[Pd]) {
    for (at, node) in nodes.iter().enumerate() {
        out.put_between(at, ";");
        put_node(out, node);
    }
}
