use super::*;
use crate::sort::{Form, Sort};
use std::test::Fail;

fn fault(at: u64, rule: Rule) -> Option<CheckFault> {
    Some(CheckFault { at, rule })
}

#[test]
fn the_first_place_and_then_the_first_rule(rt: HostRuntime) -> Result<(), Fail> {
    assert_eq!(rt;
        lesser(fault(7, Rule::UnknownType), fault(3, Rule::OperandSort)),
        fault(3, Rule::OperandSort)
    );
    assert_eq!(rt;
        lesser(fault(7, Rule::UnknownType), fault(7, Rule::NameTaken)),
        fault(7, Rule::NameTaken)
    );
    assert_eq!(rt;
        lesser(None, fault(7, Rule::UnknownType)),
        fault(7, Rule::UnknownType)
    );
    assert_eq!(rt;
        lesser(fault(7, Rule::UnknownType), None),
        fault(7, Rule::UnknownType)
    );
    assert_eq!(rt;
        fault_if(true, Rule::NameAgain, 5),
        fault(5, Rule::NameAgain)
    );
    assert_eq!(rt; fault_if(false, Rule::NameAgain, 5), None);
    Ok(())
}

#[test]
fn sorts_that_agree(rt: HostRuntime) -> Result<(), Fail> {
    let array = ExprSort::plain(Form::Array(3));
    assert!(rt; array.agrees(array));
    assert!(rt; array.agrees(ExprSort::Unknown));
    assert!(rt; !array.agrees(ExprSort::plain(Form::Array(4))));
    assert!(rt; !array.agrees(array.optional()));
    assert!(rt; !array.agrees(ExprSort::Nothing));
    assert_eq!(rt;
        array.optional(),
        ExprSort::Known(Sort {
            optional: 1,
            form: Form::Array(3)
        })
    );
    Ok(())
}

#[test]
fn plain_sorts_alone_are_taken(rt: HostRuntime) -> Result<(), Fail> {
    let num = ExprSort::plain(Form::Num);
    assert!(rt; num.is_num());
    assert!(rt; !num.is_text());
    assert!(rt; !num.is_truth());
    assert!(rt; !num.optional().is_num());
    assert!(rt; ExprSort::Unknown.is_truth());
    assert!(rt; !ExprSort::Nothing.is_num());
    Ok(())
}
