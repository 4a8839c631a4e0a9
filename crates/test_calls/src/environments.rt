//! Environments, binding by binding.
use pads_expr::{Env, Expr, Res, eval};
use pads_value::Val;
use std::test::Fail;

fn number(worth: Option<Res>) -> Option<i128> {
    match worth {
        Some(Res::Num(number)) => Some(number),
        _ => None,
    }
}

#[test]
fn the_latest_binding_counts_until_it_is_taken_back(rt: HostRuntime) -> Result<(), Fail> {
    let mut env = Env::new(rt.alloc(), 2)?;
    env.push(3, Val::Num(1));
    env.push(3, Val::Num(2));
    assert_eq!(rt; number(eval(&Expr::Var(3), &env)), Some(2));
    assert!(rt; env.pop().is_some());
    assert_eq!(rt; number(eval(&Expr::Var(3), &env)), Some(1));
    Ok(())
}

#[test]
fn an_environment_may_grow_and_is_cut_back(rt: HostRuntime) -> Result<(), Fail> {
    let mut env = Env::new(rt.alloc(), 1)?;
    env.bind(4, Val::Num(5))?;
    env.bind(5, Val::Num(6))?;
    env.cut(1);
    assert_eq!(rt; (env.len(), env.room(), env.is_empty()), (1, 1, false));
    assert_eq!(rt; number(eval(&Expr::Var(5), &env)), None);
    Ok(())
}
