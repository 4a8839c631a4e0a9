//! How deep an expression may be: in a description at most 64 levels have a tree.
use pads_expr::{Expr, Res, eval_in};
use pads_value::{Boxed, Memory};
use std::alloc::Global;
use std::test::Fail;

/// 5 under 255 minus signs.
fn minus_tower(alloc: Global) -> Result<Expr, Memory> {
    let mut e = Expr::Num(5);
    for _ in 0..255 {
        e = Expr::Neg(Boxed::new(alloc, e)?);
    }
    Ok(e)
}

/// `true` under 255 ranges of one number.
fn range_tower(alloc: Global) -> Result<Expr, Memory> {
    let mut e = Expr::Truth(true);
    for name in 0..255 {
        let first = Boxed::new(alloc, Expr::Num(0))?;
        let last = Boxed::new(alloc, Expr::Num(0))?;
        e = Expr::Forall(name, first, last, Boxed::new(alloc, e)?);
    }
    Ok(e)
}

#[test]
fn trees_of_height_256_are_evaluated_and_copied(rt: HostRuntime) -> Result<(), Fail> {
    let minus = minus_tower(rt.alloc())?.copy(rt.alloc())?;
    assert!(rt; matches!(eval_in(&minus, &[]), Some(Res::Num(-5))));
    let ranges = range_tower(rt.alloc())?;
    assert!(rt; matches!(eval_in(&ranges, &[]), Some(Res::Truth(true))));
    Ok(())
}
