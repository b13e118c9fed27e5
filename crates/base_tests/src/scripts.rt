//! Lengths that were counted by hand, and the scripts that are too small or too large.

use script_maker::{MakeRefusal, make};
use std::test::Fail;

#[test]
fn lengths(rt: HostRuntime) -> Result<(), Fail> {
    let alloc = rt.alloc();
    for (functions, length) in [(1, 318), (2, 402), (200, 17_904)] {
        let made = make(alloc, functions);
        assert!(rt;
            made.is_ok_and(|script| script.len() == length),
            "{functions}"
        );
    }
    for functions in [0, 1_001, 4_294_967_295] {
        assert_eq!(rt;
            make(alloc, functions).err(),
            Some(MakeRefusal::Size { functions })
        );
    }
    Ok(())
}
