//! Two cores over one cache of a new image, as programs above `zj_core` make them: what each tells of itself, one that meets the other,
//! and both on threads of their own. It prints what came; the text that is wanted stands in `stdout`.
#![tactic(auto)]

mod service;

ghost use Rattle.std.specs.Prelude.{[], ◌≡◌, IfOk, None, false};
ghost use Rattle.zj_turns.specs.Passes.{IsIdle, IsPeer, mine};
ghost use Rattle.zj_core.specs.Core.{CoreState, IsOf};

use anyhow::{Context, bail};
use std::alloc::Global;
use std::thread::{Threads, join};
use zj_area::Area;
use zj_block::{Sizes, Tail};
use zj_core::{Core, ShowsTree};
use zj_dev::MemDisk;
use zj_layout::format;
use zj_tree::{Call, Path};
use zj_turns::{Cache, Pass};

/// How long a journal is.
const AREA: u64 = 131_072;

/// How many calls each of two cores makes on threads.
const MANY: u32 = 100;

/// A core of a pass that was just dealt, with an empty journal.
fn core_of(alloc: Global, pass: Pass<ShowsTree>, sizes: &Sizes) -> anyhow::Result<Core<MemDisk>>
    requires idle { IsIdle pass.table pass.core pass }
    requires none { (mine pass).operations ≡ [] }
    ensures { IfOk result (λ core. (core.pass ≡ pass) × (core.sizes ≡ sizes.now) × (core.begun ≡ None)) }
{
    let core = pass.core();
    if core >= sizes.cores() || sizes.area() != AREA {
        bail!("a core of the image");
    }
    let zeros = vec![in alloc; 0u8; AREA as usize]?;
    let disk = MemDisk::new(alloc, &zeros, &[], None)?;
    let tail = Tail {
        place: 0,
        number: 0,
    };
    let Ok(mut area) = Area::open(alloc, disk, core, sizes, tail) else {
        bail!("no memory");
    };
    let Ok(_) = area.scan() else {
        bail!("a journal of zeros");
    };
    match Core::new(alloc, pass, area, sizes) {
        Ok(core) => Ok(core),
        Err(_) => bail!("no memory"),
    }
}

/// Two cores over a cache of a new image.
#[derive(Drop)]
struct Two {
    cache: Cache<ShowsTree>,
    one: Core<MemDisk>,
    two: Core<MemDisk>,
}

/// Two new cores.
fn two_cores(alloc: Global) -> anyhow::Result<Two>
    ensures one { IfOk result (λ made. IsOf made.cache made.one × (made.one.begun ≡ None)) }
    ensures two { IfOk result (λ made. IsOf made.cache made.two × (made.two.begun ≡ None)) }
    ensures peers { IfOk result (λ made. IsPeer made.one.pass made.two.pass false × IsPeer made.two.pass made.one.pass false) }
{
    let sizes = Sizes::new(1, 32, 16, 2, AREA).context("sizes")?;
    let blocks = format(alloc, &sizes)?;
    let (cache, mut passes) = Cache::<ShowsTree>::new(alloc, &sizes, &blocks, 2)?;
    let (Some(one), Some(two)) = (passes.next(), passes.next()) else {
        bail!("two passes");
    };
    Ok(Two {
        cache,
        one: core_of(alloc, one, &sizes)?,
        two: core_of(alloc, two, &sizes)?,
    })
}

/// The path `/a`.
fn path(alloc: Global) -> anyhow::Result<Path> {
    Path::parse(alloc, b"/a")?.context("a path")
}

/// Tells what a core tells of itself.
fn tell(rt: &HostRuntime, core: &Core<MemDisk>) -> anyhow::Result<()> {
    let (number, handles, left) = (core.number(), core.handles(), core.left());
    let (open, failed, away) = (core.open_handle(), core.failed(), core.away());
    let core = core.core();
    println!(rt;
        "core {core}: transaction {number} has {handles} operations, {left} tickets are left, open {open}, failed {failed}, away {away}"
    )?;
    Ok(())
}

/// The first core meets the second, and parts from it. Answers whether the second is away, before and after.
fn meets(cache: &Cache<ShowsTree>, one: &mut Core<MemDisk>, two: &mut Core<MemDisk>) -> (bool, bool)
    requires one { IsOf cache.now one.old }
    requires peer { IsPeer one.old.pass two.old.pass false }
{
    one.meet(cache, two);
    let away = two.away();
    one.part(cache, two);
    (away, two.away())
}

/// Makes a call until it was made so often, and tries again where another core has a block. Answers how often it was made.
fn call_many(cache: &Cache<ShowsTree>, mut core: Core<MemDisk>, call: &Call) -> (Core<MemDisk>, u32)
    requires of { IsOf cache.now core }
    requires idle { core.begun ≡ None }
    ensures of { IsOf cache.entry.now result.0 }
    ensures idle { result.0.begun ≡ None }
{
    let mut made = 0u32;
    for _ in 0..u32::MAX {
        if made == MANY {
            break;
        }
        let done = core.call(cache, call);
        made = made.wrapping_add(u32::from(done.is_ok()));
    }
    (core, made)
}

/// Each core makes its calls in a thread of its own. Answers how often each call was made.
fn on_threads<R: Threads + Sync>(rt: &R, made: Two, one: &Call, two: &Call) -> (u32, u32)
    requires one { IsOf made.cache made.one × (made.one.begun ≡ None) }
    requires two { IsOf made.cache made.two × (made.two.begun ≡ None) }
{
    let Two {
        cache,
        one: first,
        two: second,
    } = made;
    let shared = &cache;
    let ((first, some), (second, others)) = join(
        rt,
        move || -> (Core<MemDisk>, u32)
            requires { IsOf shared.now first × (first.begun ≡ None) }
            ensures { result.0.begun ≡ None }
        { call_many(shared, first, one) },
        move || -> (Core<MemDisk>, u32)
            requires { IsOf shared.now second × (second.begun ≡ None) }
            ensures { result.0.begun ≡ None }
        { call_many(shared, second, two) },
    );
    let _closed = (first.close(), second.close());
    (some, others)
}

fn main(rt: HostRuntime) -> anyhow::Result<()> {
    let alloc = rt.alloc();
    let mut made = two_cores(alloc)?;
    tell(&rt, &made.one)?;
    let (met, parted) = meets(&made.cache, &mut made.one, &mut made.two);
    println!(rt; "core 1 is away {met}, and then {parted}")?;
    let made = two_cores(alloc)?;
    let (one, two) = (
        Call::Mkdir { path: path(alloc)? },
        Call::Stat { path: path(alloc)? },
    );
    let (some, others) = on_threads(&rt, made, &one, &two);
    println!(rt; "{some} and {others} calls on two threads")?;
    service::starts_and_ends(&rt)
}
