//! What declarations share in short form: arguments, types, parameters, branches and conditions.

use crate::tree_text::TreeText;
use pads_ast::{Arg, Branch, Expr, Params, Type};
use std::alloc::AllocError;

impl TreeText {
    fn arg(&mut self, arg: &Arg) -> Result<(), AllocError> {
        match arg {
            Arg::Expr(e) => self.expr(e),
            Arg::Peor { at } => self.mark("Peor", *at),
        }
    }

    fn args(&mut self, args: &[Arg]) -> Result<(), AllocError> {
        self.put("(:")?;
        let mut between = "";
        for arg in args {
            self.put(between)?;
            self.arg(arg)?;
            between = ", ";
        }
        self.put(":)")
    }

    pub(crate) fn type_use(&mut self, of: &Type) -> Result<(), AllocError> {
        if let Some(at) = of.optional {
            self.mark("Popt", at)?;
            self.put(" ")?;
        }
        self.name(&of.name)?;
        match &of.args {
            Some(args) => self.args(args.as_slice()),
            None => Ok(()),
        }
    }

    pub(crate) fn params(&mut self, params: &Params) -> Result<(), AllocError> {
        let Some(params) = params else {
            return Ok(());
        };
        self.put(" (:")?;
        let mut between = "";
        for param in params.as_slice() {
            self.put(between)?;
            self.type_use(&param.of)?;
            self.put(" ")?;
            self.name(&param.name)?;
            between = ", ";
        }
        self.put(":)")
    }

    pub(crate) fn branch(&mut self, branch: &Branch) -> Result<(), AllocError> {
        self.put(" (")?;
        self.type_use(&branch.of)?;
        self.put(" ")?;
        self.name(&branch.name)?;
        if let Some(constraint) = &branch.constraint {
            self.put(" : ")?;
            self.expr(constraint)?;
        }
        self.put(")")
    }

    pub(crate) fn condition(&mut self, condition: &Option<Expr>) -> Result<(), AllocError> {
        match condition {
            Some(condition) => {
                self.put(" (Pwhere ")?;
                self.closed(condition)
            }
            None => Ok(()),
        }
    }
}
