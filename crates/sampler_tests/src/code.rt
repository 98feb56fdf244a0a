// The code of `choice 2/3 { x := 1; } or { x := 2; } return x;`.

use crate::programs::{TWO_THIRDS, program};
use sampler_code::list;
use sampler_run::compile;
use std::test::Fail;

const LISTING: &[u8] =
    b"0 tries\n1 flip 3\n2 goto 6\n3 flip 5\n4 goto 8\n5 again 1\n6 set x 1\n7 goto 9\n8 set x 2\n9 return x\n";

const TARGETS: [usize; 10] = [0, 3, 6, 5, 8, 1, 0, 9, 0, 0];

#[test]
fn the_code_of_two_thirds(rt: HostRuntime) -> Result<(), Fail> {
    let p = program(rt.alloc(), TWO_THIRDS)?;
    let sampler = compile(rt.alloc(), &p)?;
    let code = sampler.code();
    assert_eq!(rt; (code.count(), code.loops(), code.vars()), (10, 0, 1));
    assert_eq!(rt; code.depth(), 1);
    for i in 0..TARGETS.len().min(code.count()) {
        assert_eq!(rt; code.target(i), TARGETS[i]);
    }
    let names = &p.program().names;
    assert!(rt; code.vars() <= names.count());
    let text = list(rt.alloc(), code, names)?;
    assert_eq!(rt; text.as_slice(), LISTING);
    Ok(())
}
