//! Declarations in short form.

use crate::tree_text::TreeText;
use pads_ast::{
    Array, ArrayOption, Ast, Case, Constraint, Decl, DeclBody, DeclMark, Enum, Expr, Label, Name,
    Opt, Params, Part, Struct, Switch, Type, Typedef, Union, UnionBody,
};
use std::alloc::AllocError;

impl TreeText {
    fn part(&mut self, part: &Part) -> Result<(), AllocError> {
        match part {
            Part::Literal(literal) => {
                self.put(" ")?;
                self.literal(literal)
            }
            Part::Pcompute { of, name, value } => self.computed(of, name, value),
            Part::Field(branch) => self.branch(branch),
        }
    }

    fn computed(&mut self, of: &Type, name: &Name, value: &Expr) -> Result<(), AllocError> {
        self.put(" (Pcompute ")?;
        self.type_use(of)?;
        self.put(" ")?;
        self.name(name)?;
        self.put(" = ")?;
        self.closed(value)
    }

    fn heading(&mut self, form: &str, name: &Name, params: &Params) -> Result<(), AllocError> {
        self.put(form)?;
        self.name(name)?;
        self.params(params)
    }

    fn structure(&mut self, decl: &Struct) -> Result<(), AllocError> {
        self.heading("(Pstruct ", &decl.name, &decl.params)?;
        for part in decl.parts.as_slice() {
            self.part(part)?;
        }
        self.condition(&decl.condition)?;
        self.put(")")
    }

    fn case(&mut self, case: &Case) -> Result<(), AllocError> {
        self.put(" (Pcase ")?;
        self.constant(&case.key)?;
        self.branch(&case.branch)?;
        self.put(")")
    }

    fn switch(&mut self, switch: &Switch) -> Result<(), AllocError> {
        self.put(" (Pswitch ")?;
        self.expr(&switch.value)?;
        for case in switch.cases.as_slice() {
            self.case(case)?;
        }
        if let Some(branch) = &switch.default {
            self.put(" (Pdefault")?;
            self.branch(branch)?;
            self.put(")")?;
        }
        self.put(")")
    }

    fn union(&mut self, decl: &Union) -> Result<(), AllocError> {
        self.heading("(Punion ", &decl.name, &decl.params)?;
        match &decl.body {
            UnionBody::Branches(branches) => {
                for branch in branches.as_slice() {
                    self.branch(branch)?;
                }
            }
            UnionBody::Switch(switch) => self.switch(switch)?,
        }
        self.put(")")
    }

    fn option(&mut self, option: &ArrayOption) -> Result<(), AllocError> {
        match option {
            ArrayOption::Psep { at, separator } => {
                self.mark(" (Psep", *at)?;
                self.put(" ")?;
                self.word(separator)?;
            }
            ArrayOption::Pterm { at, terminator } => {
                self.mark(" (Pterm", *at)?;
                self.put(" ")?;
                self.literal(terminator)?;
            }
            ArrayOption::Plast { at, condition } => {
                self.mark(" (Plast", *at)?;
                self.put(" ")?;
                self.expr(condition)?;
            }
        }
        self.put(")")
    }

    fn size(&mut self, size: &Option<Expr>) -> Result<(), AllocError> {
        self.put("[")?;
        if let Some(size) = size {
            self.expr(size)?;
        }
        self.put("]")
    }

    fn array(&mut self, decl: &Array) -> Result<(), AllocError> {
        self.heading("(Parray ", &decl.name, &decl.params)?;
        self.put(" ")?;
        self.type_use(&decl.of)?;
        self.size(&decl.size)?;
        for option in decl.options.as_slice() {
            self.option(option)?;
        }
        self.condition(&decl.condition)?;
        self.put(")")
    }

    fn label(&mut self, label: &Label) -> Result<(), AllocError> {
        self.put(" ")?;
        self.name(&label.name)?;
        match &label.spelling {
            Some(spelling) => {
                self.put(" Pfrom ")?;
                self.word(spelling)
            }
            None => Ok(()),
        }
    }

    fn enumeration(&mut self, decl: &Enum) -> Result<(), AllocError> {
        self.put("(Penum ")?;
        self.name(&decl.name)?;
        let mut between = " :";
        for label in decl.labels.as_slice() {
            self.put(between)?;
            self.label(label)?;
            between = ",";
        }
        self.put(")")
    }

    fn constraint(&mut self, constraint: &Option<Constraint>) -> Result<(), AllocError> {
        let Some(constraint) = constraint else {
            return Ok(());
        };
        self.put(" : ")?;
        self.name(&constraint.name)?;
        self.put(" ")?;
        self.name(&constraint.variable)?;
        self.put(" => ")?;
        self.expr(&constraint.condition)
    }

    fn typedef(&mut self, decl: &Typedef) -> Result<(), AllocError> {
        self.put("(Ptypedef ")?;
        self.type_use(&decl.of)?;
        self.heading(" ", &decl.name, &decl.params)?;
        self.constraint(&decl.constraint)?;
        self.put(")")
    }

    fn opt(&mut self, decl: &Opt) -> Result<(), AllocError> {
        self.put("(Popt ")?;
        self.type_use(&decl.of)?;
        self.heading(" ", &decl.name, &decl.params)?;
        self.put(")")
    }

    fn decl(&mut self, decl: &Decl) -> Result<(), AllocError> {
        match decl.mark {
            Some(DeclMark::Precord) => self.put("Precord ")?,
            Some(DeclMark::Psource) => self.put("Psource ")?,
            Some(DeclMark::Precursive) => self.put("Precursive ")?,
            None => {}
        }
        match &decl.body {
            DeclBody::Struct(decl) => self.structure(decl),
            DeclBody::Union(decl) => self.union(decl),
            DeclBody::Array(decl) => self.array(decl),
            DeclBody::Enum(decl) => self.enumeration(decl),
            DeclBody::Typedef(decl) => self.typedef(decl),
            DeclBody::Opt(decl) => self.opt(decl),
        }
    }

    /// Declarations one by one, and the place of the end.
    pub(crate) fn description(&mut self, tree: &Ast) -> Result<(), AllocError> {
        for decl in tree.decls.as_slice() {
            self.decl(decl)?;
            self.put("; ")?;
        }
        self.mark("end", tree.end)
    }
}
