//! Least paths in a small graph, found by hand: from the states 2 and 0 words lead to all of its six states but the last.

use crate::{Search, explored_rows, first_place, least_path, place};
use std::alloc::Global;
use std::process::Abort;
use std::test::Fail;

const ROWS: [u32; 12] = [1, 2, 3, 1, 3, 4, 0, 3, 4, 4, 5, 5];

fn check_path(
    rt: &impl Abort,
    alloc: Global,
    state: u32,
    start: u32,
    letters: &[u32],
) -> Result<(), Fail> {
    let found = explored_rows(alloc, &ROWS, 2, 6, &[2, 0])?;
    match first_place(6, &found, state) {
        Some(at) => {
            assert_eq!(rt; place(6, &found, at), state);
            let trail = least_path(alloc, &Search::new(&found, 2, 2), at)?;
            assert_eq!(rt; trail.start, start);
            assert_eq!(rt; trail.letters.as_slice(), letters);
        }
        None => assert!(rt; false, "a path leads there"),
    }
    Ok(())
}

// State 3 is led to by the letter 0 from state 2, and by two letters from state 0.
#[test]
fn least_of_all_paths(rt: HostRuntime) -> Result<(), Fail> {
    let alloc = rt.alloc();
    check_path(&rt, alloc, 2, 0, &[])?;
    check_path(&rt, alloc, 3, 0, &[0])?;
    check_path(&rt, alloc, 4, 0, &[1])?;
    check_path(&rt, alloc, 1, 1, &[0])?;
    let found = explored_rows(alloc, &ROWS, 2, 6, &[2, 0])?;
    assert!(rt; first_place(6, &found, 5).is_none());
    Ok(())
}
