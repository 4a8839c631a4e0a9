//! Expressions in short form.

use crate::tree_text::TreeText;
use pads_ast::{Expr, Link, Name, Step, UnaryOperator};
use pads_expr::BinOp;
use std::alloc::AllocError;

fn operator_text(operator: BinOp) -> &'static str {
    match operator {
        BinOp::Or => " || ",
        BinOp::And => " && ",
        BinOp::Eq => " == ",
        BinOp::Ne => " != ",
        BinOp::Lt => " < ",
        BinOp::Le => " <= ",
        BinOp::Gt => " > ",
        BinOp::Ge => " >= ",
        BinOp::Add => " + ",
        BinOp::Sub => " - ",
        BinOp::Mul => " * ",
        BinOp::Div => " / ",
        BinOp::Rem => " % ",
    }
}

fn sign_text(operator: UnaryOperator) -> &'static str {
    match operator {
        UnaryOperator::Minus => "(-",
        UnaryOperator::Not => "(!",
    }
}

impl TreeText {
    #[cycle(expr)]
    pub(crate) fn expr(&mut self, e: &Expr) -> Result<(), AllocError> {
        match e {
            Expr::Chain { first, rest } => {
                self.put("(")?;
                self.expr(first.get())?;
                self.links(rest.as_slice())
            }
            Expr::Unary {
                operator,
                at,
                operand,
            } => {
                self.mark(sign_text(*operator), *at)?;
                self.put(" ")?;
                self.closed(operand.get())
            }
            Expr::Post { base, steps } => {
                self.put("(")?;
                self.expr(base.get())?;
                self.steps(steps.as_slice())
            }
            Expr::Number { value, at } => self.number(value.get(), *at),
            Expr::Word(word) => self.word(word),
            Expr::Truth { value, at } => self.mark(if *value { "true" } else { "false" }, *at),
            Expr::Name(name) => self.name(name),
            Expr::Paren { at, inner } => {
                self.mark("(paren", *at)?;
                self.put(" ")?;
                self.closed(inner.get())
            }
            Expr::Pis { at, value, name } => self.pis(*at, value.get(), name),
            Expr::Plen { at, value } => {
                self.mark("(Plen", *at)?;
                self.put(" ")?;
                self.closed(value.get())
            }
            Expr::Pforall {
                at,
                variable,
                low,
                high,
                body,
            } => {
                self.quantifier(*at, variable)?;
                self.expr(low.get())?;
                self.put(" .. ")?;
                self.expr(high.get())?;
                self.body(body.get())
            }
        }
    }

    /// A part, and the bracket behind it.
    #[cycle(expr)]
    pub(crate) fn closed(&mut self, e: &Expr) -> Result<(), AllocError> {
        self.expr(e)?;
        self.put(")")
    }

    #[cycle(expr)]
    fn links(&mut self, links: &[Link<Expr>]) -> Result<(), AllocError> {
        for link in links {
            self.put(operator_text(link.operator))?;
            self.expr(&link.operand)?;
        }
        self.put(")")
    }

    #[cycle(expr)]
    fn steps(&mut self, steps: &[Step<Expr>]) -> Result<(), AllocError> {
        for step in steps {
            match step {
                Step::Name(name) => self.field(name)?,
                Step::Index { at, index } => {
                    self.bracket(*at)?;
                    self.expr(index)?;
                    self.put("]")?;
                }
            }
        }
        self.put(")")
    }

    fn bracket(&mut self, at: u64) -> Result<(), AllocError> {
        self.mark(" ", at)?;
        self.put("[")
    }

    fn field(&mut self, name: &Name) -> Result<(), AllocError> {
        self.put(" .")?;
        self.name(name)
    }

    #[cycle(expr)]
    fn pis(&mut self, at: u64, value: &Expr, name: &Name) -> Result<(), AllocError> {
        self.mark("(Pis", at)?;
        self.put(" ")?;
        self.expr(value)?;
        self.put(" ")?;
        self.close(name)
    }

    fn close(&mut self, name: &Name) -> Result<(), AllocError> {
        self.name(name)?;
        self.put(")")
    }

    fn quantifier(&mut self, at: u64, variable: &Name) -> Result<(), AllocError> {
        self.mark("(Pforall", at)?;
        self.put(" ")?;
        self.name(variable)?;
        self.put(" ")
    }

    #[cycle(expr)]
    fn body(&mut self, e: &Expr) -> Result<(), AllocError> {
        self.put(" : ")?;
        self.closed(e)
    }
}
