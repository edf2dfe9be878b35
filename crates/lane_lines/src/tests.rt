//! Lines that are dealt, and what becomes of them, worked by hand.
use crate::deal_lines;
use std::alloc::Global;
use std::test::*;

// Whether two lanes get these scripts of an input, and these fault lines are told.
fn deals(alloc: Global, input: &[u8], first: &[u8], second: &[u8], faults: &[u8]) -> bool {
    match deal_lines(alloc, input, 2) {
        Ok(dealt) => {
            dealt.scripts.len() == 2
                && dealt.scripts[0].as_slice() == first
                && dealt.scripts[1].as_slice() == second
                && dealt.faults.as_slice() == faults
        }
        Err(_) => false,
    }
}

#[test]
fn lines_go_to_the_lanes_that_they_name(rt: HostRuntime) {
    assert!(rt;
        deals(
            rt.alloc(),
            b"0 PUT a 1\n1 PUT b 2\n0 GET a\n1 GET b\n2 GET a",
            b"PUT a 1\nGET a\n",
            b"PUT b 2\nGET b\n",
            b"ERR 7 lane\n"
        )
    );
}

#[test]
fn a_lane_is_named_by_few_digits(rt: HostRuntime) {
    assert!(rt;
        deals(
            rt.alloc(),
            b"001 x y\r\n\n0\n1 \n0001 x\n +1 x\nx\n 1 x\n",
            b"\n",
            b"x y\n\n",
            b"ERR 7 lane\nERR 7 lane\nERR 7 lane\nERR 7 lane\n"
        )
    );
}
