//! What names mean in trees that break rules, and what such trees resolve and translate to.
use pads_ast::Ast;
use pads_code::Coding;
use pads_declared::{
    Meaning, NameSet, TypeTable, choice_position, declared, element, has_choice, is_precord_type,
    meaning_of, meaning_sort, member,
};
use pads_lex::lex;
use pads_module::IllFormed;
use pads_resolution::{Decl, DeclBody, Description, Role, Source, Type, TypeName};
use pads_resolve::resolve;
use pads_rules::{ExprSort, Form};
use pads_syntax::parse;
use pads_trans::module_of_description;
use pads_value::{Bytes, Items, Memory, Refusal};
use std::alloc::Global;
use std::test::Fail;

fn tree(alloc: Global, text: &[u8]) -> Option<Ast> {
    let tokens = lex(alloc, text).ok()?;
    parse(alloc, &tokens).ok()
}

fn types(alloc: Global, text: &[u8]) -> Option<TypeTable> {
    let tree = tree(alloc, text)?;
    declared(alloc, tree.decls.as_slice()).ok()
}

const TWO: &[u8] = b"Precord Pstruct a { }; Precord Pstruct b { };";

#[test]
fn names_mean_what_is_declared(rt: HostRuntime) {
    let Some(types) = types(rt.alloc(), TWO) else {
        panic!(rt; "no types");
    };
    let all = types.seen_from(types.len());
    let second = meaning_of(&all, b"b");
    assert_eq!(rt; meaning_sort(second), ExprSort::plain(Form::Struct(1)));
    assert!(rt; is_precord_type(second));
    assert!(rt; matches!(meaning_of(&all, b"c"), Meaning::Undeclared));
    assert!(rt; matches!(meaning_of(&all, b"Pip"), Meaning::Base(_)));
}

#[test]
fn later_types_mean_nothing(rt: HostRuntime) {
    let Some(types) = types(rt.alloc(), TWO) else {
        panic!(rt; "no types");
    };
    let sight = types.seen_from(1);
    assert!(rt; matches!(meaning_of(&sight, b"a"), Meaning::Known(_)));
    assert!(rt; matches!(meaning_of(&sight, b"b"), Meaning::Undeclared));
    assert_eq!(rt; sight.number_of(b"b"), Some(1));
    assert!(rt; types.declares(b"b"));
    assert!(rt; !types.declares_before(1, b"b"));
}

#[test]
fn later_types_that_are_marked_mean_something(rt: HostRuntime) {
    let text =
        b"Precord Pstruct a { }; Precursive Ptypedef Popt c b; Precursive Ptypedef Puint8 c;";
    let Some(types) = types(rt.alloc(), text) else {
        panic!(rt; "no types");
    };
    let sight = types.seen_from(0);
    let num = ExprSort::plain(Form::Num);
    assert!(rt; matches!(meaning_of(&sight, b"a"), Meaning::Undeclared));
    assert_eq!(rt; meaning_sort(meaning_of(&sight, b"b")), num.optional());
    assert_eq!(rt; meaning_sort(meaning_of(&sight, b"c")), num);
}

#[test]
fn the_first_label_of_a_name_counts(rt: HostRuntime) {
    let Some(types) = types(rt.alloc(), b"Penum e { x, y, x };") else {
        panic!(rt; "no types");
    };
    let of_enum = ExprSort::plain(Form::Enum(0));
    assert_eq!(rt; choice_position(&types, 0, b"x"), Some(0));
    assert_eq!(rt; choice_position(&types, 0, b"y"), Some(1));
    assert_eq!(rt; choice_position(&types, 1, b"x"), None);
    assert!(rt; has_choice(&types, of_enum, b"y"));
    assert!(rt; !has_choice(&types, of_enum, b"z"));
    assert_eq!(rt; member(&types, of_enum, b"x"), None);
    assert_eq!(rt; element(&types, of_enum), ExprSort::Unknown);
}

#[test]
fn a_set_knows_its_names(rt: HostRuntime) -> Result<(), Fail> {
    let mut set = NameSet::new(rt.alloc());
    assert!(rt; !set.add(b"x")?);
    assert!(rt; !set.add(b"y")?);
    assert!(rt; set.add(b"x")?);
    assert_eq!(rt; set.len(), 2);
    Ok(())
}

/// An enum alone, without a record.
#[test]
fn an_enum_is_a_part_of_records(rt: HostRuntime) -> Result<(), Fail> {
    let Some(tree) = tree(rt.alloc(), b"Penum e { A };") else {
        panic!(rt; "no tree");
    };
    let description = resolve(rt.alloc(), &tree)?;
    let Some(decl) = description.decls.get(0) else {
        panic!(rt; "no declaration");
    };
    assert_eq!(rt; decl.role, Role::Part);
    assert_eq!(rt; decl.name.as_slice(), b"e".as_slice());
    assert_eq!(rt; description.source.record, 0);
    Ok(())
}

/// One declaration, an optional of the declaration behind it.
fn unfounded(alloc: Global) -> Result<Description, Memory> {
    let of = Type {
        optional: false,
        name: TypeName::Declared(1),
        args: Items::new(alloc),
    };
    let mut decls = Items::new(alloc);
    decls.push(Decl {
        role: Role::Precord,
        name: Bytes::from_slice(alloc, b"r")?,
        params: Items::new(alloc),
        body: DeclBody::Opt(of),
    })?;
    let source = Source {
        header: None,
        record: 0,
    };
    Ok(Description { decls, source })
}

#[test]
fn a_declaration_that_is_not_there_is_refused(rt: HostRuntime) -> Result<(), Fail> {
    let description = unfounded(rt.alloc())?;
    let made = module_of_description(rt.alloc(), &description, Coding::Ascii);
    assert!(rt; matches!(&made, Err(Refusal::Fault(IllFormed))));
    Ok(())
}
