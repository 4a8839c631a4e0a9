use crate::Verdict;
use std::test::Fail;

/// No description is so long that this is its verdict, so it is no row of `test_check`.
#[test]
fn the_longest_line(rt: HostRuntime) -> Result<(), Fail> {
    let verdict = Verdict::Syntax {
        token: u64::MAX,
        at: u64::MAX,
    };
    assert_eq!(rt;
        verdict.line().as_slice(),
        b"pads: refused: description syntax at token 18446744073709551615 byte 18446744073709551615\n".as_slice()
    );
    Ok(())
}
