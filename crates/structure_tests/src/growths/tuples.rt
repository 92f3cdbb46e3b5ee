//! Tuples, and lists of few items.
use crate::assertions::{assert_same, assert_that};
use crate::growths::asked_again;
use crate::samples::{is_equal, text};
use mm_value::{Few, Refusal, Tuple, Value};
use std::alloc::{AllocError, Global};
use std::process::Abort;
use std::test::Fail;

/// Returns a tuple of as many values as are stored inline: three integers and a text that exceeds the 16 bytes that a text stores inline.
fn four(alloc: Global) -> Result<Tuple, Refusal> {
    let mut tuple = Tuple::with_capacity(alloc, 4)?;
    tuple.push(Value::Int(7))?;
    tuple.push(Value::Int(8))?;
    tuple.push(Value::Int(9))?;
    tuple.push(text(alloc, b"seventeen letters")?)?;
    Ok(tuple)
}

/// Returns a tuple with one value more than `four`.
fn five(alloc: Global) -> Result<Tuple, Refusal> {
    let mut tuple = four(alloc)?;
    tuple.push(Value::Int(5))?;
    Ok(tuple)
}

/// Returns whether two lists have the same values.
fn are_same(a: &[Value], b: &[Value]) -> bool {
    a.len() == b.len() && a.iter().zip(b).all(|(a, b)| is_equal(a, b))
}

/// Appends a fifth value to a tuple of four, again if an allocation fails; then the tuple still equals another one.
fn push_again(
    rt: &(impl Abort + Print),
    tuple: &mut Tuple,
    same: &Tuple,
    after: &Tuple,
) -> Result<(), Fail> {
    if let Err(AllocError) = tuple.push(Value::Int(5)) {
        asked_again(rt)?;
        assert_that(rt, are_same(tuple.values(), same.values()));
        tuple.push(Value::Int(5))?;
    }
    assert_that(rt, are_same(tuple.values(), after.values()));
    Ok(())
}

#[test]
fn tuple_push_growths(rt: HostRuntime) -> Result<(), Fail> {
    let alloc = rt.alloc();
    match (five(alloc), four(alloc), four(alloc)) {
        (Ok(after), Ok(same), Ok(mut tuple)) => push_again(&rt, &mut tuple, &same, &after),
        _ => Ok(()),
    }
}

/// Returns a tuple of copies of values, again if an allocation fails; then the values still equal others.
fn copy_again(
    rt: &(impl Abort + AllocGlobal + Print),
    values: &[Value],
    same: &[Value],
) -> Result<Tuple, Fail> {
    match Tuple::copy_of(rt.alloc(), values) {
        Ok(copy) => Ok(copy),
        Err(AllocError) => {
            asked_again(rt)?;
            assert_that(rt, are_same(values, same));
            Ok(Tuple::copy_of(rt.alloc(), values)?)
        }
    }
}

/// Asserts that a tuple of copies of values equals others.
fn assert_copied(
    rt: &(impl Abort + AllocGlobal + Print),
    values: &[Value],
    same: &[Value],
) -> Result<(), Fail> {
    let copy = copy_again(rt, values, same)?;
    assert_that(rt, are_same(copy.values(), same));
    Ok(())
}

#[test]
fn tuple_copy_growths(rt: HostRuntime) -> Result<(), Fail> {
    match (five(rt.alloc()), five(rt.alloc())) {
        (Ok(first), Ok(same)) => assert_copied(&rt, first.values(), same.values()),
        _ => Ok(()),
    }
}

/// Appends a number to a list, again if an allocation fails; then the list still has its numbers.
fn add_again(
    rt: &(impl Abort + AllocGlobal + Print),
    few: &mut Few<u32>,
    number: u32,
    before: &[u32],
) -> Result<(), Fail> {
    if let Err(AllocError) = few.push(rt.alloc(), number) {
        asked_again(rt)?;
        assert_same(rt, few.as_slice(), before);
        few.push(rt.alloc(), number)?;
    }
    Ok(())
}

#[test]
fn few_push_growths(rt: HostRuntime) -> Result<(), Fail> {
    let mut few = Few::one(1);
    add_again(&rt, &mut few, 2, &[1])?;
    add_again(&rt, &mut few, 3, &[1, 2])?;
    add_again(&rt, &mut few, 4, &[1, 2, 3])?;
    add_again(&rt, &mut few, 5, &[1, 2, 3, 4])?;
    assert_same(&rt, few.as_slice(), [1, 2, 3, 4, 5].as_slice());
    Ok(())
}
