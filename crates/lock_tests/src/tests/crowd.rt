// What is run of threads that come and go at one lock, over and over: a wake that is lost would keep one of them for ever.

use crate::crowd::{TURNS, share};
use esx_types::CALLERS;
use std::test::Fail;

const PLAYS: u32 = 2_500;

#[test]
fn nobody_sleeps_for_ever(rt: HostRuntime) -> Result<(), Fail> {
    for _ in 0..PLAYS {
        for callers in 2..=5 {
            assert_eq!(rt;
                share(&rt, rt.alloc(), callers)?,
                Some(callers * TURNS as usize)
            );
        }
    }
    Ok(())
}

#[test]
fn as_many_callers_as_there_may_be(rt: HostRuntime) -> Result<(), Fail> {
    assert_eq!(rt;
        share(&rt, rt.alloc(), CALLERS)?,
        Some(CALLERS * TURNS as usize)
    );
    Ok(())
}
