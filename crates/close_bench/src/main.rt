//! Closes eight journals whose records all follow each other, once where all was found and once where the last record
//! follows a missing one, so that nothing is kept. The first word is how many records a journal has; the time is told on
//! standard error.
#![tactic(auto)]

ghost use Rattle.std.specs.Prelude.{◌≡◌, ◌<◌, ◌^◌, ℕ};
ghost use Rattle.zj_closure.specs.Found.{tail_of};

use std::alloc::Global;
use std::env;
use std::time::Instant;
use zj_block::{Sizes, Tails};
use zj_closure::closed;
use zj_tx::{Found, Sealed, decode};

/// Tails of a new image.
fn start() -> Tails
    ensures { (core : ℕ) → tail_of result core < 2 ^ 62 }
{
    Tails::zero()
}

/// The record of a transaction of no block.
fn sealed(
    alloc: Global,
    sizes: &Sizes,
    core: u32,
    number: u64,
    bounds: &[u64],
) -> anyhow::Result<Sealed>
    requires { core < sizes.now.cores }
{
    let mut bytes = Vec::new(alloc);
    bytes.extend_from_slice(&1_u64.to_le_bytes())?;
    bytes.extend_from_slice(&number.to_le_bytes())?;
    bytes.extend_from_slice(&0_u32.to_le_bytes())?;
    bytes.extend_from_slice(&sizes.cores().to_le_bytes())?;
    for bound in bounds {
        bytes.extend_from_slice(&bound.to_le_bytes())?;
    }
    bytes.resize(sizes.max_record() as usize, 0)?;
    Ok(decode(alloc, sizes, core, number, &bytes)?)
}

/// A core's records: each follows the one of the same number on the next core, and on the last core the next number of the
/// first one. The last core's last record follows that many beyond its own number.
fn journal(alloc: Global, sizes: &Sizes, core: u32, count: u64, last: u64) -> anyhow::Result<Found>
    requires core { core < sizes.now.cores }
    requires count { count < 2 ^ 32 }
    requires last { last < 3 }
{
    let mut records = Found::new(alloc);
    for number in 0..count {
        let mut bounds = [0; 8];
        let beyond = match core {
            7 if number + 1 < count => 2,
            7 => last,
            _ => 1,
        };
        bounds[(core as usize + 1) % 8] = number + beyond;
        records.push(sealed(alloc, sizes, core, number, &bounds)?)?;
    }
    Ok(records)
}

/// The journals of eight cores.
fn journals(alloc: Global, sizes: &Sizes, count: u64, last: u64) -> anyhow::Result<Vec<Found>>
    requires cores { sizes.now.cores ≡ 8 }
    requires count { count < 2 ^ 32 }
    requires last { last < 3 }
{
    let mut found = Vec::new(alloc);
    for core in 0..8_u32 {
        found.push(journal(alloc, sizes, core, count, last)?)?;
    }
    Ok(found)
}

/// Closes journals of so many records, and tells how many of the first core are kept, and the time.
fn close(rt: &HostRuntime, sizes: &Sizes, count: u64, last: u64) -> anyhow::Result<()>
    requires cores { sizes.now.cores ≡ 8 }
    requires count { count < 2 ^ 32 }
    requires last { last < 3 }
{
    let found = journals(rt.alloc(), sizes, count, last)?;
    if found.len() != sizes.cores() as usize {
        return Ok(());
    }
    let begin = Instant::now(rt)?;
    let kept = closed(sizes, &start(), &found);
    let took = begin.elapsed(rt)?.as_millis();
    println!(rt; "kept {} of {count}", kept.at(0).unwrap_or(0))?;
    eprintln!(rt; "{took} ms")?;
    Ok(())
}

fn main(rt: HostRuntime) -> anyhow::Result<()> {
    let words: Vec<String> = env::args(&rt)?.skip(1).collect(rt.alloc())?;
    let count = match words.first() {
        Some(word) => word.as_str().parse::<u32>()?,
        None => 1_000,
    };
    let Some(sizes) = Sizes::new(1, 64, 8, 8, 131_072) else {
        return Ok(());
    };
    close(&rt, &sizes, u64::from(count), 1)?;
    close(&rt, &sizes, u64::from(count), 2)
}
