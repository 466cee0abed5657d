use crate::{count_in_threads, count_to_six, tell};
use std::test::*;

// Whether the six answers are 1 to 6, each once.
fn are_one_to_six(ones: [u64; 3], others: [u64; 3]) -> bool {
    (1..7).all(|n| ones.contains(&n) != others.contains(&n))
}

#[test]
fn two_threads_count_to_six(rt: HostRuntime) -> Result<(), Fail> {
    let (ones, others, last) = count_to_six(&rt, rt.alloc())?;
    assert!(rt; are_one_to_six(ones, others), "{ones:?} and {others:?}");
    assert_eq!(rt; last, 6);
    Ok(())
}

#[test]
fn a_note_is_met(rt: HostRuntime) -> Result<(), Fail> {
    assert_eq!(rt; tell(&rt, rt.alloc())?, (11, 11, 11));
    Ok(())
}

#[test]
fn eight_threads_count(rt: HostRuntime) -> Result<(), Fail> {
    assert_eq!(rt; count_in_threads(&rt, rt.alloc(), 8, 10_000)?, 80_000);
    Ok(())
}
