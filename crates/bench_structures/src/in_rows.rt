//! Measures the rows by reference.
ghost use Rattle.std.specs.Prelude.{◌≡◌, [], IfOk, All};
ghost use Rattle.mm_partition.specs.Places.{IsLive};
ghost use Rattle.bench_structures.specs.Apart.{AreApart};

use crate::entries::after;
use crate::report::{Pass, print};
use mm_partition::Partitions;
use mm_value::RowRef;
use std::alloc::{AllocError, Global};
use std::time::Instant;

/// Fills partitions with `n` rows without values, reads each in shuffled order, and removes them, the last one first.
pub(crate) fn measure(rt: &HostRuntime, n: usize) -> anyhow::Result<()> {
    let mut rows = Partitions::new(rt.alloc(), &[])?;
    let refs = time_fill(rt, &mut rows, n)?;
    time_ask(rt, &rows, refs.as_slice())?;
    time_empty(rt, &mut rows, refs)
}

fn time_fill(rt: &HostRuntime, rows: &mut Partitions, n: usize) -> anyhow::Result<Vec<RowRef>>
    requires { rows.old.types ≡ [] }
    ensures live { IfOk result (λ refs. All (IsLive rows.new) refs.items) }
    ensures apart { IfOk result (λ refs. AreApart refs.items) }
{
    let alloc = rt.alloc();
    let start = Instant::now(rt)?;
    let refs = fill(alloc, rows, n)?;
    let pass = Pass::new("Partitions", "insert", n);
    print(rt, &pass, start.elapsed(rt)?, 0)?;
    Ok(refs)
}

fn time_ask(rt: &HostRuntime, rows: &Partitions, refs: &[RowRef]) -> anyhow::Result<()>
    requires { All (IsLive rows.now) refs.now }
{
    let start = Instant::now(rt)?;
    let sum = ask(rows, refs);
    let pass = Pass::new("Partitions", "look-up", refs.len());
    print(rt, &pass, start.elapsed(rt)?, sum)?;
    Ok(())
}

fn time_empty(rt: &HostRuntime, rows: &mut Partitions, refs: Vec<RowRef>) -> anyhow::Result<()>
    requires live { All (IsLive rows.old) refs.items }
    requires apart { AreApart refs.items }
{
    let pass = Pass::new("Partitions", "remove", refs.len());
    let start = Instant::now(rt)?;
    let gone = empty(rows, refs);
    print(rt, &pass, start.elapsed(rt)?, gone)?;
    Ok(())
}

#[tactic(auto, using(crate::proofs::Rows::live_after))]
fn fill(alloc: Global, rows: &mut Partitions, n: usize) -> Result<Vec<RowRef>, AllocError>
    requires { rows.old.types ≡ [] }
    ensures live { IfOk result (λ refs. All (IsLive rows.new) refs.items) }
    ensures apart { IfOk result (λ refs. AreApart refs.items) }
{
    let mut refs = Vec::with_capacity(alloc, n)?;
    for _ in 0..n {
        rows.reserve(alloc, 1)?;
        let at = rows.place(&mut []);
        refs.push(at)?;
    }
    Ok(refs)
}

fn ask(rows: &Partitions, refs: &[RowRef]) -> usize
    requires { All (IsLive rows.now) refs.now }
{
    let mut sum = 0usize;
    let mut number = 0usize;
    for _ in 0..refs.len() {
        let row = rows.get(refs[number]);
        sum = sum.wrapping_add(row.len()).wrapping_add(number);
        number = after(number, refs.len());
    }
    sum
}

fn empty(rows: &mut Partitions, mut refs: Vec<RowRef>) -> usize
    requires live { All (IsLive rows.old) refs.items }
    requires apart { AreApart refs.items }
{
    let mut sum = 0usize;
    while let Some(at) = refs.pop() {
        rows.hide(at);
        rows.release(at);
        sum = sum.wrapping_add(1);
    }
    sum
}
