//! Terms as text: a term's form and, in brackets, what it holds, with semicolons between. A literal is its
//! bytes, a name its text, and a part or branch stands behind its name and a colon.
use crate::base_text::put_base;
use crate::expr_text::{put_expr, put_exprs, put_name};
use crate::line::Line;
use pads_calc::{Arm, Case, ComputedForm, Decl, Key, Part, Seq, Shape, Term};
use pads_expr::Expr;
use pads_value::NameTable;

#[cycle(term)]
fn put_term(out: &mut Line, names: &NameTable, term: &Term) {
    match term {
        Term::Unit => out.put("Unit"),
        Term::Eor => out.put("Eor"),
        Term::Base(base, args) => {
            put_base(out, base);
            put_last(out, names, args.as_slice());
        }
        Term::Lit(bytes) => {
            out.put("Lit(");
            out.put_quoted(bytes.as_slice());
            out.put(")");
        }
        Term::Struct(parts) => put_parts(out, names, parts.as_slice()),
        Term::Alt(arms) => put_arms(out, names, arms.as_slice()),
        Term::Switch(e, cases) => {
            out.put("Switch(");
            put_expr(out, names, e);
            put_cases(out, names, cases.as_slice());
        }
        Term::Guard(inner, name, e) => {
            out.put("Guard(");
            put_term(out, names, inner.get());
            put_condition(out, names, *name, e);
        }
        Term::Seq(seq) => put_seq(out, names, seq.get()),
        Term::Call(number, args) => {
            out.put("Call(");
            out.put_number((*number).into());
            put_last(out, names, args.as_slice());
        }
        Term::Compute(e, form) => put_computed(out, names, e, *form),
        Term::Absorb(inner) => put_wrapped(out, names, "Absorb(", inner.get()),
        Term::Scan(inner) => put_wrapped(out, names, "Scan(", inner.get()),
    }
}

/// A form over one term.
#[cycle(term)]
fn put_wrapped(out: &mut Line, names: &NameTable, form: &str, inner: &Term) {
    out.put(form);
    put_term(out, names, inner);
    out.put(")");
}

/// Expressions and the closing bracket.
fn put_last(out: &mut Line, names: &NameTable, exprs: &[Expr]) {
    put_exprs(out, names, exprs);
    out.put(")");
}

fn put_condition(out: &mut Line, names: &NameTable, name: u16, e: &Expr) {
    out.put("; ");
    put_name(out, names, name);
    out.put("; ");
    put_expr(out, names, e);
    out.put(")");
}

fn put_computed(out: &mut Line, names: &NameTable, e: &Expr, form: ComputedForm) {
    out.put("Compute(");
    put_expr(out, names, e);
    out.put("; ");
    match form {
        ComputedForm::Range(low, high) => {
            out.put_number(low);
            out.put("..");
            out.put_number(high);
        }
        ComputedForm::Text => out.put("text"),
    }
    out.put(")");
}

#[cycle(term)]
fn put_parts(out: &mut Line, names: &NameTable, parts: &[Part]) {
    out.put("Struct(");
    for (at, part) in parts.iter().enumerate() {
        out.put_between(at, "; ");
        if let Some(name) = part.name {
            put_name(out, names, name);
            out.put(": ");
        }
        put_term(out, names, &part.term);
    }
    out.put(")");
}

#[cycle(term)]
fn put_arm(out: &mut Line, names: &NameTable, arm: &Arm) {
    put_name(out, names, arm.name);
    out.put(": ");
    put_term(out, names, &arm.term);
}

#[cycle(term)]
fn put_arms(out: &mut Line, names: &NameTable, arms: &[Arm]) {
    out.put("Alt(");
    for (at, arm) in arms.iter().enumerate() {
        out.put_between(at, "; ");
        put_arm(out, names, arm);
    }
    out.put(")");
}

fn put_key(out: &mut Line, key: &Option<Key>) {
    match key {
        Some(Key::Num(number)) => out.put_number(*number),
        Some(Key::Text(text)) => out.put_quoted(text.as_slice()),
        None => out.put("else"),
    }
}

#[cycle(term)]
fn put_cases(out: &mut Line, names: &NameTable, cases: &[Case]) {
    for case in cases {
        out.put("; ");
        put_key(out, &case.key);
        out.put(" => ");
        put_arm(out, names, &case.arm);
    }
    out.put(")");
}

/// A term of an array, if it is there.
#[cycle(term)]
fn put_option(out: &mut Line, names: &NameTable, word: &str, term: &Option<Term>) {
    if let Some(term) = term {
        out.put(word);
        put_term(out, names, term);
    }
}

/// An expression of an array, if it is there.
fn put_clause(out: &mut Line, names: &NameTable, word: &str, e: &Option<Expr>) {
    if let Some(e) = e {
        out.put(word);
        put_expr(out, names, e);
    }
}

#[cycle(term)]
fn put_seq(out: &mut Line, names: &NameTable, seq: &Seq) {
    out.put("Seq(");
    put_term(out, names, &seq.elem);
    put_option(out, names, "; sep ", &seq.sep);
    put_clause(out, names, "; size ", &seq.size);
    put_clause(out, names, "; last ", &seq.last);
    put_option(out, names, "; stop ", &seq.stop);
    out.put("; elts ");
    put_name(out, names, seq.elts);
    out.put(")");
}

/// A declaration: its name, its parameters, its body, and `unset` where its values aren't kept.
pub(crate) fn put_decl(out: &mut Line, names: &NameTable, decl: &Decl) {
    put_name(out, names, decl.name);
    out.put("(");
    for (at, param) in decl.params.as_slice().iter().enumerate() {
        out.put_between(at, ", ");
        put_name(out, names, *param);
    }
    out.put(") = ");
    put_term(out, names, &decl.body);
    if !decl.set {
        out.put(" unset");
    }
}

/// The names by their numbers, from 0.
pub(crate) fn put_names(out: &mut Line, names: &NameTable) {
    out.put("names");
    for number in 0..u16::MAX {
        let Some(name) = names.at(number) else {
            return;
        };
        out.put(" ");
        out.put_points(name);
    }
}

/// Which declarations the records have.
pub(crate) fn put_shape(out: &mut Line, shape: &Shape) {
    if let Some(head) = shape.head {
        out.put("head ");
        out.put_number(head.into());
        out.put(" ");
    }
    out.put("each ");
    out.put_number(shape.each.into());
}
