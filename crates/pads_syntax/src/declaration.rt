ghost use Rattle.std.specs.Prelude.{◌≡◌};
ghost use Rattle.pads_grammar.specs.Grammar.{reads, begins, optional, many, apply, either, token};
ghost use Rattle.pads_grammar.specs.Reads.{Reads};
ghost use Rattle.pads_ast.specs.declared.decl.DeclBody.TheVariants as decl_form;
ghost use Rattle.pads_syntax.specs.Declarations.{marked, decl_body, other_body, decl, decls, struct_decl, union_decl, array_decl};

use crate::array::array_decl;
use crate::enumeration::enum_decl;
use crate::structure::struct_decl;
use crate::typedef::{opt_decl, typedef_decl};
use crate::unions::union_decl;
use pads_ast::{Decl, DeclBody, DeclMark};
use pads_grammar::{Cursor, Kind, Reading};
use pads_lex::{Keyword, Mark};
use pads_syntax_parts::with_mark;
use pads_value::Items;
use std::alloc::Global;

/// What a declaration is marked as, where it is marked.
#[tactic(auto, unfolding(crate::specs::Declarations::marked))]
fn marked(cursor: &mut Cursor<'_>) -> Reading<Option<DeclMark>>
    ensures reads { Reads (reads marked cursor.old) result cursor.new }
{
    let next = cursor.peek();
    if next.is_keyword(Keyword::Precord) {
        let _mark = cursor.keyword(Keyword::Precord)?;
        Ok(Some(DeclMark::Precord))
    } else if next.is_keyword(Keyword::Psource) {
        let _mark = cursor.keyword(Keyword::Psource)?;
        Ok(Some(DeclMark::Psource))
    } else if next.is_keyword(Keyword::Precursive) {
        let _mark = cursor.keyword(Keyword::Precursive)?;
        Ok(Some(DeclMark::Precursive))
    } else {
        Ok(None)
    }
}

/// A declaration that is no struct, union or array.
#[tactic(auto, using(crate::proofs::Firsts::firsts), unfolding(crate::specs::Declarations::other_body))]
fn other_body(alloc: Global, cursor: &mut Cursor<'_>) -> Reading<DeclBody>
    ensures reads { Reads (reads other_body cursor.old) result cursor.new }
{
    let next = cursor.peek();
    if next.is_keyword(Keyword::Penum) {
        Ok(DeclBody::Enum(enum_decl(alloc, cursor)?))
    } else if next.is_keyword(Keyword::Ptypedef) {
        Ok(DeclBody::Typedef(typedef_decl(alloc, cursor)?))
    } else {
        Ok(DeclBody::Opt(opt_decl(alloc, cursor)?))
    }
}

fn struct_body(alloc: Global, cursor: &mut Cursor<'_>) -> Reading<DeclBody>
    ensures reads { Reads (reads (apply decl_form.Struct struct_decl) cursor.old) result cursor.new }
{
    Ok(DeclBody::Struct(struct_decl(alloc, cursor)?))
}

fn union_body(alloc: Global, cursor: &mut Cursor<'_>) -> Reading<DeclBody>
    ensures reads { Reads (reads (apply decl_form.Union union_decl) cursor.old) result cursor.new }
{
    Ok(DeclBody::Union(union_decl(alloc, cursor)?))
}

fn array_body(alloc: Global, cursor: &mut Cursor<'_>) -> Reading<DeclBody>
    ensures reads { Reads (reads (apply decl_form.Array array_decl) cursor.old) result cursor.new }
{
    Ok(DeclBody::Array(array_decl(alloc, cursor)?))
}

fn decl_body(alloc: Global, cursor: &mut Cursor<'_>) -> Reading<DeclBody>
    ensures reads { Reads (reads decl_body cursor.old) result cursor.new }
{
    let next = cursor.peek();
    if next.is_keyword(Keyword::Pstruct) {
        struct_body(alloc, cursor)
    } else if next.is_keyword(Keyword::Punion) {
        union_body(alloc, cursor)
    } else if next.is_keyword(Keyword::Parray) {
        array_body(alloc, cursor)
    } else {
        other_body(alloc, cursor)
    }
}

#[tactic(auto, unfolding(crate::specs::Declarations::decl))]
fn decl(alloc: Global, cursor: &mut Cursor<'_>) -> Reading<Decl>
    ensures reads { Reads (reads decl cursor.old) result cursor.new }
{
    let mark = marked(cursor)?;
    let body = decl_body(alloc, cursor)?;
    let (body, _end) = with_mark(body, cursor, Mark::Semicolon)?;
    Ok(Decl { mark, body })
}

/// Whether a token of that kind begins a declaration.
#[tactic(auto, using(crate::proofs::Firsts::begins_decl))]
fn begins_decl(kind: Kind) -> bool
    ensures begins { result ≡ begins decl kind }
{
    kind.is_keyword(Keyword::Precord)
        || kind.is_keyword(Keyword::Psource)
        || kind.is_keyword(Keyword::Precursive)
        || kind.is_keyword(Keyword::Pstruct)
        || kind.is_keyword(Keyword::Punion)
        || kind.is_keyword(Keyword::Parray)
        || kind.is_keyword(Keyword::Penum)
        || kind.is_keyword(Keyword::Ptypedef)
        || kind.is_keyword(Keyword::Popt)
}

/// Any number of declarations.
#[tactic(auto, using(crate::proofs::DeclLoops::decl_loop))]
pub(crate) fn decls(alloc: Global, cursor: &mut Cursor<'_>) -> Reading<Items<Decl>>
    ensures reads { Reads (reads decls cursor.old) result cursor.new }
{
    let mut decls = Items::new(alloc);
    'decls: while begins_decl(cursor.peek()) {
        decls.push(decl(alloc, cursor)?)?;
    }
    Ok(decls)
}
