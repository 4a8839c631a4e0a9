//! What the rules say of an expression, as text.
use pads_declared::declared;
use pads_judge::{Judgement, Scope, judge};
use pads_lex::lex;
use pads_rules::{CheckFault, ExprSort, Form, Named};
use pads_syntax::parse_expr;
use pads_value::{Bytes, Items, Memory};
use std::alloc::{AllocError, Global};

fn sort_name(sort: ExprSort) -> &'static str {
    match sort {
        ExprSort::Known(known) => match known.form {
            Form::Num => "number",
            Form::Text => "text",
            Form::Truth => "truth",
            _ => "value of a declared type",
        },
        ExprSort::Nothing => "nothing",
        ExprSort::Unknown => "unknown",
    }
}

/// The name `s`, which is a text.
fn names(alloc: Global) -> Result<Items<Named>, Memory> {
    let mut names = Items::new(alloc);
    names.push(Named {
        text: Bytes::from_slice(alloc, b"s")?,
        sort: ExprSort::plain(Form::Text),
    })?;
    Ok(names)
}

fn judgement_text(alloc: Global, said: &Judgement) -> Result<String, AllocError> {
    let sort = sort_name(said.sort);
    let height = said.height;
    let mut text = format!(in alloc; "{sort}, height {height}")?;
    if let Some(CheckFault { at, rule }) = said.fault {
        let number = rule.number();
        write!(text, ", rule {number} at byte {at}")?;
    }
    Ok(text)
}

/// What is said of an expression that uses no name but `s`, in a description without declarations.
pub(crate) fn judged(alloc: Global, text: &[u8]) -> Result<String, AllocError> {
    let Ok(tokens) = lex(alloc, text) else {
        return String::from_str(alloc, "no tokens");
    };
    let Ok(tree) = parse_expr(alloc, &tokens) else {
        return String::from_str(alloc, "no tree");
    };
    let (Ok(types), Ok(names)) = (declared(alloc, &[]), names(alloc)) else {
        return Err(AllocError);
    };
    let said = judge(&types, &tree.expr, &Scope::Names(names.as_slice(), &[]));
    judgement_text(alloc, &said)
}
