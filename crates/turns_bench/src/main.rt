//! Measures the block cache: how long one, two and four threads take for their handles, each thread on a block of its own
//! and all threads on one block, and how long a cache of 4,096 blocks takes to be made. A handle takes a block, loads it,
//! stores a new content, draws a ticket and gives the block back. The first word is how many handles a thread makes;
//! the times are told on standard error.
#![tactic(auto)]

ghost use Rattle.std.specs.Prelude.{◌≡◌, ◌≢◌, ◌+◌, ◌≤◌, ◌<◌, All, IfOk, length, vec_len};
ghost use Rattle.zj_turns.specs.Passes.{IsIdle, dealt, fresh, left_of};

use std::alloc::{AllocError, Global};
use std::env;
use std::rt::Runtime;
use std::thread::{Threads, map_vec, yield_now};
use std::time::Instant;
use zj_block::{Block, BlockNo, Blocks, Sizes};
use zj_turns::{Cache, Pass, Passes, StateTest};

/// Refuses no state.
struct AnyState;

impl StateTest for AnyState {
    ghost passes = { λ sizes s. Unit {0} };
}

/// Tries one handle, which adds 1 to the first word of a block. Answers how many were made: none where
/// another core has the block.
fn try_one(cache: &Cache<AnyState>, mut pass: Pass<AnyState>, b: BlockNo) -> (Pass<AnyState>, u32)
    requires idle { IsIdle cache.now.table pass.core pass }
    requires room { left_of pass ≢ 0 }
    requires block { b.0 < length cache.now.start }
    ensures idle { IsIdle cache.entry.now.table result.0.core result.0 }
    ensures left { left_of result.0 + result.1 ≡ left_of pass }
    ensures count { result.1 ≤ 1 }
{
    match cache.try_take(&mut pass, b) {
        Ok(()) => {
            let mut block = Block::zero();
            let _ = cache.load(&mut pass, b, &mut block);
            let sum = block.word(0).map_or(0, |word| word.wrapping_add(1));
            let _ = block.set_word(0, sum);
            cache.store(&mut pass, b, &block);
            let _ticket = cache.draw(&mut pass, 5);
            cache.give(&mut pass, b);
            (pass, 1)
        }
        Err(_) => (pass, 0),
    }
}

/// Makes so many handles on a block, and tries again where another core has it. Answers how many were made.
fn work(cache: &Cache<AnyState>, mut pass: Pass<AnyState>, b: BlockNo, count: u32) -> u32
    requires fresh { pass ≡ fresh cache.now.table pass.core }
    requires block { b.0 < length cache.now.start }
{
    let mut made = 0;
    for _ in 0..u64::MAX {
        if made == count {
            break;
        }
        let (after, more) = try_one(cache, pass, b);
        if more == 0 {
            yield_now();
        }
        pass = after;
        made += more;
    }
    made
}

/// All passes of a cache.
fn all_of(
    alloc: Global,
    cache: &Cache<AnyState>,
    mut passes: Passes<AnyState>,
) -> Result<Vec<Pass<AnyState>>, AllocError>
    requires all { passes ≡ dealt cache.now.table cache.now.cores cache.now.cores }
    ensures { IfOk result (λ v. All (λ p. p ≡ fresh cache.now.table p.core) v.items) }
{
    let mut all = Vec::new(alloc);
    for _ in 0..64 {
        let Some(pass) = passes.next() else {
            break;
        };
        all.push(pass)?;
    }
    Ok(all)
}

/// Each pass makes so many handles in a thread of its own, on the block of its core's number or all on
/// block 0. Answers how many were made.
fn run<R: Threads + Sync>(
    rt: &R,
    cache: &Cache<AnyState>,
    passes: Vec<Pass<AnyState>>,
    one_block: bool,
    count: u32,
) -> Result<u64, AllocError>
    requires fresh { All (λ p. p ≡ fresh cache.now.table p.core) passes.items }
    requires blocks { 4 ≤ length cache.now.start }
{
    let made = map_vec(
        rt,
        passes,
        &|pass: Pass<AnyState>| -> u32
            requires { (4 ≤ length cache.now.start) × (pass ≡ fresh cache.now.table pass.core) }
        {
            let b = block_of(&pass, one_block);
            work(cache, pass, b, count)
        },
    )?;
    Ok(
        made.iter()
            .fold(0u64, |sum, more| sum.wrapping_add(u64::from(*more))),
    )
}

/// The block that a pass works on.
fn block_of(pass: &Pass<AnyState>, one_block: bool) -> BlockNo
    ensures { result.0 < 4 }
{
    if one_block {
        BlockNo(0)
    } else {
        BlockNo(pass.core() % 4)
    }
}

/// Runs so many threads on a new cache, and tells how many handles they made, and the time.
fn measure<R: Runtime + Threads + Sync>(
    rt: &R,
    alloc: Global,
    threads: u32,
    one_block: bool,
    count: u32,
) -> anyhow::Result<()>
    requires some { 1 ≤ threads }
    requires few { threads ≤ 4 }
{
    let Some(sizes) = Sizes::new(1, 16, 8, 8, 131_072) else {
        return Ok(());
    };
    let blocks = Blocks::zero(alloc, 16)?;
    let (cache, passes) = Cache::<AnyState>::new(alloc, &sizes, &blocks, threads)?;
    let passes = all_of(alloc, &cache, passes)?;
    let begin = Instant::now(rt)?;
    let made = run(rt, &cache, passes, one_block, count)?;
    let took = begin.elapsed(rt)?.as_micros();
    let place = if one_block { "one block" } else { "own blocks" };
    println!(rt; "{threads} on {place}: {made} handles")?;
    eprintln!(rt; "{threads} on {place}: {took} us")?;
    Ok(())
}

/// Makes a cache of 4,096 blocks for so many cores, and tells the time.
fn make(rt: &HostRuntime, cores: u32) -> anyhow::Result<()>
    requires some { 1 ≤ cores }
    requires few { cores ≤ 64 }
{
    let Some(sizes) = Sizes::new(1, 4_096, 8, 8, 131_072) else {
        return Ok(());
    };
    let blocks = Blocks::zero(rt.alloc(), 4_096)?;
    let begin = Instant::now(rt)?;
    let (_cache, _passes) = Cache::<AnyState>::new(rt.alloc(), &sizes, &blocks, cores)?;
    let took = begin.elapsed(rt)?.as_micros();
    println!(rt; "a cache of 4096 blocks for {cores} cores")?;
    eprintln!(rt; "a cache for {cores} cores: {took} us")?;
    Ok(())
}

fn main(rt: HostRuntime) -> anyhow::Result<()> {
    let words: Vec<String> = env::args(&rt)?.skip(1).collect(rt.alloc())?;
    let count = match words.first() {
        Some(word) => word.as_str().parse::<u32>()?,
        None => 1_000,
    };
    make(&rt, 64)?;
    make(&rt, 1)?;
    for one_block in [false, true] {
        measure(&rt, rt.alloc(), 1, one_block, count)?;
        measure(&rt, rt.alloc(), 2, one_block, count)?;
        measure(&rt, rt.alloc(), 4, one_block, count)?;
    }
    Ok(())
}
