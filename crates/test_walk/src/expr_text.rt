//! Expressions as text: a number, a text in quotes, `true` or `false`, a variable's name, an operator
//! between its operands in brackets, and all else as its form with what it holds in brackets.
use crate::line::Line;
use pads_expr::{BinOp, Expr};
use pads_value::NameTable;

pub(crate) fn put_name(out: &mut Line, names: &NameTable, number: u16) {
    match names.at(number) {
        Some(name) => out.put_points(name),
        None => out.put("?"),
    }
}

fn operator(op: BinOp) -> &'static str {
    match op {
        BinOp::Or => " || ",
        BinOp::And => " && ",
        BinOp::Eq => " == ",
        BinOp::Ne => " != ",
        BinOp::Lt => " < ",
        BinOp::Le => " <= ",
        BinOp::Gt => " > ",
        BinOp::Ge => " >= ",
        BinOp::Add => " + ",
        BinOp::Sub => " - ",
        BinOp::Mul => " * ",
        BinOp::Div => " / ",
        BinOp::Rem => " % ",
    }
}

/// A form over one operand and, behind it, a number.
#[cycle(expr)]
fn put_numbered(out: &mut Line, names: &NameTable, form: &str, inner: &Expr, number: u16) {
    out.put(form);
    put_expr(out, names, inner);
    out.put("; ");
    out.put_number(number.into());
    out.put(")");
}

/// What stands before an operand, the operand and a closing bracket.
#[cycle(expr)]
fn put_unary(out: &mut Line, names: &NameTable, form: &str, inner: &Expr) {
    out.put(form);
    put_expr(out, names, inner);
    out.put(")");
}

#[cycle(expr)]
pub(crate) fn put_expr(out: &mut Line, names: &NameTable, e: &Expr) {
    match e {
        Expr::Num(number) => out.put_number(*number),
        Expr::Text(text) => out.put_quoted(text.as_slice()),
        Expr::Truth(true) => out.put("true"),
        Expr::Truth(false) => out.put("false"),
        Expr::Var(name) => put_name(out, names, *name),
        Expr::Part(whole, number) => put_numbered(out, names, "Part(", whole.get(), *number),
        Expr::Arm(whole, number) => put_numbered(out, names, "Arm(", whole.get(), *number),
        Expr::IsArm(whole, number) => put_numbered(out, names, "IsArm(", whole.get(), *number),
        Expr::Len(inner) => put_unary(out, names, "Len(", inner.get()),
        Expr::Neg(inner) => put_unary(out, names, "Neg(", inner.get()),
        Expr::Not(inner) => put_unary(out, names, "Not(", inner.get()),
        Expr::Elem(whole, index) => {
            out.put("Elem(");
            put_expr(out, names, whole.get());
            put_unary(out, names, "; ", index.get());
        }
        Expr::Bin(op, left, right) => {
            out.put("(");
            put_expr(out, names, left.get());
            put_unary(out, names, operator(*op), right.get());
        }
        Expr::Forall(name, first, last, inner) => {
            out.put("Forall(");
            put_name(out, names, *name);
            out.put("; ");
            put_expr(out, names, first.get());
            out.put("; ");
            put_expr(out, names, last.get());
            put_unary(out, names, "; ", inner.get());
        }
    }
}

/// Expressions, each behind a semicolon.
pub(crate) fn put_exprs(out: &mut Line, names: &NameTable, exprs: &[Expr]) {
    for e in exprs {
        out.put("; ");
        put_expr(out, names, e);
    }
}
