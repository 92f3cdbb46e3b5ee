//! Changes of a table: made, or refused.
use super::asked_again;
use super::shows::{Shows, table_shows};
use crate::assertions::{assert_same, assert_that};
use crate::stores::{Case, Step};
use mm_value::Refusal;
use std::alloc::{AllocError, Global};
use std::process::Abort;
use std::test::Fail;

impl Case {
    /// Returns whether the second table shows these contents.
    pub fn second_shows(&self, alloc: Global, all: Shows) -> Result<bool, AllocError> {
        table_shows(&self.store, 1, alloc, all)
    }
}

/// Undoes a step of the second table, and checks its contents before the step and after it.
fn comes_back(
    rt: &impl Abort,
    alloc: Global,
    case: &mut Case,
    tables: [Shows; 2],
) -> Result<(), Fail> {
    let [before, after] = tables;
    let Ok(is_made) = case.second_shows(alloc, after) else {
        return Ok(());
    };
    assert_that(rt, is_made);
    case.go_back();
    let Ok(is_back) = case.second_shows(alloc, before) else {
        return Ok(());
    };
    assert_that(rt, is_back);
    Ok(())
}

/// Makes a step of the second table again after an allocation failed, and asserts that nothing changed before.
fn makes_again(
    rt: &(impl Abort + Print),
    alloc: Global,
    case: &mut Case,
    step: Step,
    mark: usize,
    before: Shows,
) -> Result<Result<bool, Refusal>, Fail> {
    asked_again(rt)?;
    assert_same(rt, case.store.mark(), mark);
    assert_that(rt, case.second_shows(alloc, before)?);
    Ok(case.apply(alloc, step))
}

/// Makes a step of the second table and undoes it, and checks its contents before and after the step.
fn goes_and_comes(
    rt: &(impl Abort + Print),
    alloc: Global,
    case: &mut Case,
    step: Step,
    tables: [Shows; 2],
) -> Result<(), Fail> {
    let mark = case.set_mark();
    let mut answer = case.apply(alloc, step);
    if answer == Err(Refusal::Memory) {
        answer = makes_again(rt, alloc, case, step, mark, tables[0])?;
    }
    assert_same(rt, &answer, &Ok(true));
    comes_back(rt, alloc, case, tables)
}

/// No rows.
const EMPTY: Shows = Shows {
    rows: &[],
    along_tree: &[],
    by_hash: &[(1, 0), (2, 0), (3, 0)],
};

/// Rows with three keys.
const THREE: Shows = Shows {
    rows: &[(13, 3), (21, 1), (32, 2)],
    along_tree: &[21, 32, 13],
    by_hash: &[(1, 1), (2, 1), (3, 1)],
};

#[test]
fn apply_growths(rt: HostRuntime) -> Result<(), Fail> {
    let alloc = rt.alloc();
    let Ok(mut case) = Case::new(alloc, &[1, 2, 3], &[]) else {
        return Ok(());
    };
    let step = Step::Put(&[32, 13, 21]);
    goes_and_comes(&rt, alloc, &mut case, step, [EMPTY, THREE])
}

/// The three rows, the first of them with another value.
const TURNED: Shows = Shows {
    rows: &[(13, 2), (21, 1), (32, 2)],
    along_tree: &[21, 13, 32],
    by_hash: &[(1, 1), (2, 2), (3, 0)],
};

/// The three rows without the last of them.
const TWO: Shows = Shows {
    rows: &[(13, 2), (21, 1)],
    along_tree: &[21, 13],
    by_hash: &[(1, 1), (2, 1), (3, 0)],
};

/// Updates one row of three, and deletes the last.
fn turns_and_removes(
    rt: &(impl Abort + Print),
    alloc: Global,
    case: &mut Case,
) -> Result<(), Fail> {
    goes_and_comes(rt, alloc, case, Step::Turn(13, 2), [THREE, TURNED])?;
    let Ok(true) = case.step(alloc, 1, Step::Turn(13, 2)) else {
        return Ok(());
    };
    goes_and_comes(rt, alloc, case, Step::Remove(32), [TURNED, TWO])
}

#[test]
fn apply_to_rows_growths(rt: HostRuntime) -> Result<(), Fail> {
    let alloc = rt.alloc();
    let Ok(mut case) = Case::new(alloc, &[1, 2, 3], &[13, 21, 32]) else {
        return Ok(());
    };
    turns_and_removes(&rt, alloc, &mut case)
}

/// Steps of the second table that are refused.
const REFUSED: [(Step, Refusal); 2] = [
    (Step::Put(&[41, 32]), Refusal::DuplicateKey),
    (Step::Put(&[41, 34]), Refusal::NoTargetRow),
];

/// Tries a step of the second table that is refused, and asserts that nothing changed.
fn refuses(
    rt: &(impl Abort + Print),
    alloc: Global,
    case: &mut Case,
    step: Step,
    refusal: Refusal,
) -> Result<(), Fail> {
    let mark = case.set_mark();
    let mut answer = case.apply(alloc, step);
    if answer == Err(Refusal::Memory) {
        answer = makes_again(rt, alloc, case, step, mark, THREE)?;
    }
    assert_same(rt, &answer, &Err(refusal));
    assert_same(rt, case.store.mark(), mark);
    let Ok(is_same) = case.second_shows(alloc, THREE) else {
        return Ok(());
    };
    assert_that(rt, is_same);
    Ok(())
}

/// Tries steps of the second table that are refused.
fn refuses_each(rt: &(impl Abort + Print), alloc: Global, case: &mut Case) -> Result<(), Fail> {
    for (step, refusal) in &REFUSED {
        refuses(rt, alloc, case, *step, *refusal)?;
    }
    Ok(())
}

#[test]
fn refused_apply_growths(rt: HostRuntime) -> Result<(), Fail> {
    let alloc = rt.alloc();
    let Ok(mut case) = Case::new(alloc, &[1, 2, 3], &[13, 21, 32]) else {
        return Ok(());
    };
    refuses_each(&rt, alloc, &mut case)
}
