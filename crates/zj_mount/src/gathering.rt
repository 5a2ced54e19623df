//! What is kept of the journals of an image, gathered without keeping all that they hold in memory.
//!
//! Which records are kept is known once all journals were read. So a reading begins with a guess: it puts the images of the
//! records below guessed bounds together, journal by journal, and lets go of a journal's blocks before it reads the next one.
//! Where the guess chose what is kept, the images are right. The first guess is all that is found, the second what the first
//! reading keeps. That one fails only where a device's bytes changed meanwhile; then all that is found stays in memory.

ghost use Rattle.std.specs.Prelude.{◌≡◌, ◌↔◌, ◌<◌, ◌≤◌, ◌^◌, ℕ, IfOk, IfErr, IfSome, IsTrue, OnOk, length, map, nat_lt, slice_get, slice_index, true};
ghost use Rattle.zj_block.specs.declared.sizes.TheConstants.{MAX_CORES};
ghost use Rattle.zj_closure.specs.Found.{records_of, tail_of};
ghost use Rattle.zj_closure.specs.Kept.{AreKept};
ghost use Rattle.zj_mount.specs.Gathering.{ChooseSame, GathersBelow, GathersKept, GathersOne, IsReading};
ghost use Rattle.zj_mount.specs.Inspecting.{AreAllReady, AreFound, AreOnlyRead, IsFindCause, IsOneCause, IsOnlyRead, JournalHolds};

use crate::fault::MountFault;
use std::alloc::Global;
use zj_area::{Journal, ScanFault};
use zj_block::{Bounds, Tails};
use zj_closure::laws::bare_are_kept;
use zj_closure::{Images, closed, newest};
use zj_dev::{Device, Disk};
use zj_home::Home;
use zj_tx::Found;

/// How many readings begin with a guess.
const GUESSES: u32 = 2;

/// What is kept of the journals.
#[derive(Drop)]
pub(crate) struct Gathered {
    /// As many records of each core as were found, maybe without their blocks.
    pub(crate) heads: Vec<Found>,
    /// The greatest consistent cut of what was found.
    pub(crate) kept: Bounds,
    /// The newest images that the records below it have.
    pub(crate) images: Images,
}

/// What a reading came to that began with a guess.
#[derive(Drop)]
enum Reading {
    /// The guess chose what is kept.
    Kept(Gathered),
    /// It chose other records: this is what is kept.
    Missed(Bounds),
}

/// What is kept of the journals, in one reading where all that is found is kept, and else in two.
pub(crate) fn gather_kept<D: Disk, J: Journal>(
    alloc: Global,
    home: &Home<D>,
    journals: &mut [J],
) -> Result<Gathered, MountFault>
    requires cores { length journals.old ≡ home.now.told.sizes.cores }
    requires few { length journals.old ≤ MAX_CORES }
    ensures kept { IfOk result (λ gathered. GathersKept home.now.told (map J.journal journals.old) gathered.heads.items (slice_index gathered.kept) gathered.images) }
    ensures ready { OnOk result (AreAllReady (map J.journal journals.new) (length journals.old)) }
    ensures cause { IfErr result (IsFindCause (map J.journal journals.old) (map J.journal journals.new)) }
    ensures read { AreOnlyRead (map J.journal journals.old) (map J.journal journals.new) }
{
    let mut guess = everything();
    for _reading in 0..GUESSES {
        match gather_guessing(alloc, home, journals, &guess)? {
            Reading::Kept(gathered) => return Ok(gathered),
            Reading::Missed(kept) => guess = kept,
        }
    }
    gather_whole(alloc, home, journals)
}

/// Bounds that choose all that is found.
fn everything() -> Bounds {
    let mut all = Bounds::zero();
    for core in 0..64 {
        let _put = all.put(core, u64::MAX);
    }
    all
}

/// What is kept of the journals, if a guess chooses it.
fn gather_guessing<D: Disk, J: Journal>(
    alloc: Global,
    home: &Home<D>,
    journals: &mut [J],
    guess: &Bounds,
) -> Result<Reading, MountFault>
    requires cores { length journals.old ≡ home.now.told.sizes.cores }
    requires few { length journals.old ≤ MAX_CORES }
    ensures reading { IfOk result (IsReading home.now.told (map J.journal journals.old)) }
    ensures ready { OnOk result (AreAllReady (map J.journal journals.new) (length journals.old)) }
    ensures cause { IfErr result (IsFindCause (map J.journal journals.old) (map J.journal journals.new)) }
    ensures read { AreOnlyRead (map J.journal journals.old) (map J.journal journals.new) }
{
    let (heads, images) = gather_below(alloc, journals, guess)?;
    let kept = kept_of(home, &heads);
    bare_are_kept();
    if !choose_same(&heads, guess, &kept) {
        return Ok(Reading::Missed(kept));
    }
    Ok(Reading::Kept(Gathered {
        heads,
        kept,
        images,
    }))
}

/// The records that the journals hold, without their blocks, and the newest images that those below bounds have.
fn gather_below<J: Journal>(
    alloc: Global,
    journals: &mut [J],
    bounds: &Bounds,
) -> Result<(Vec<Found>, Images), MountFault>
    requires { length journals.old ≤ MAX_CORES }
    ensures gathered { IfOk result (λ read. GathersBelow (map J.journal journals.old) (slice_index bounds.now) read.0.items read.1) }
    ensures many { IfOk result (λ read. length read.0.items ≡ length journals.old) }
    ensures ready { OnOk result (AreAllReady (map J.journal journals.new) (length journals.old)) }
    ensures cause { IfErr result (IsFindCause (map J.journal journals.old) (map J.journal journals.new)) }
    ensures read { AreOnlyRead (map J.journal journals.old) (map J.journal journals.new) }
{
    let mut heads = Vec::new(alloc);
    let mut images = Images::new(alloc);
    for (core, journal) in journals.iter_mut().enumerate() {
        heads.reserve(1)?;
        let bound = bound_of(bounds, core as u32);
        let head = gather_one(alloc, journal, core as u32, bound, &mut images)?;
        heads.push(head).unwrap();
    }
    Ok((heads, images))
}

/// The records that the journal of a core holds, without their blocks: what those below a bound have of each block is added to
/// images first.
fn gather_one<J: Journal>(
    alloc: Global,
    journal: &mut J,
    core: u32,
    bound: u64,
    images: &mut Images,
) -> Result<Found, MountFault>
    ensures gathered { IfOk result (GathersOne (J.journal journal.old) bound images.old images.new) }
    ensures ready { OnOk result ((J.journal journal.new).ready ≡ true) }
    ensures read { IsOnlyRead (J.journal journal.old) (J.journal journal.new) }
    ensures cause { IfErr result (IsOneCause core (J.journal journal.old) (J.journal journal.new)) }
{
    let mut records = find_one(journal, core)?;
    images.add(&records, bound)?;
    records.forget_blocks(alloc);
    Ok(records)
}

/// Whether bounds choose the same of what was found.
fn choose_same(heads: &[Found], guess: &Bounds, kept: &Bounds) -> bool
    requires { length heads.now ≤ MAX_CORES }
    ensures { IsTrue result ↔ ((core : ℕ) → ChooseSame (slice_index guess.now core) (slice_index kept.now core) (records_of heads.now core)) }
{
    for (core, records) in heads.iter().enumerate() {
        let guessed = bound_of(guess, core as u32);
        if !chooses_same(records, guessed, bound_of(kept, core as u32)) {
            return false;
        }
    }
    true
}

/// Whether bounds choose the same of the records of one core.
fn chooses_same(records: &Found, guess: u64, kept: u64) -> bool
    ensures { IsTrue result ↔ ChooseSame guess kept records.now }
{
    for i in 0..records.len() {
        if !chooses_same_at(records, i, guess, kept) {
            return false;
        }
    }
    true
}

/// Whether bounds choose the same of the record with this place.
fn chooses_same_at(records: &Found, i: usize, guess: u64, kept: u64) -> bool
    ensures { IsTrue result ↔ IfSome (slice_get records.now i) (λ r. nat_lt r.number guess ≡ nat_lt r.number kept) }
{
    match records.at(i) {
        Some(sealed) => (sealed.number() < guess) == (sealed.number() < kept),
        None => true,
    }
}

/// What is kept of the journals, of which all records stay in memory.
fn gather_whole<D: Disk, J: Journal>(
    alloc: Global,
    home: &Home<D>,
    journals: &mut [J],
) -> Result<Gathered, MountFault>
    requires cores { length journals.old ≡ home.now.told.sizes.cores }
    requires few { length journals.old ≤ MAX_CORES }
    ensures kept { IfOk result (λ gathered. GathersKept home.now.told (map J.journal journals.old) gathered.heads.items (slice_index gathered.kept) gathered.images) }
    ensures ready { OnOk result (AreAllReady (map J.journal journals.new) (length journals.old)) }
    ensures cause { IfErr result (IsFindCause (map J.journal journals.old) (map J.journal journals.new)) }
    ensures read { AreOnlyRead (map J.journal journals.old) (map J.journal journals.new) }
{
    let heads = find_all(alloc, journals)?;
    let kept = kept_of(home, &heads);
    let images = newest(alloc, &heads, &kept)?;
    Ok(Gathered {
        heads,
        kept,
        images,
    })
}

/// The records that each journal holds, in the order of the cores.
fn find_all<J: Journal>(alloc: Global, journals: &mut [J]) -> Result<Vec<Found>, MountFault>
    requires { length journals.old ≤ MAX_CORES }
    ensures many { IfOk result (λ found. length found.items ≡ length journals.old) }
    ensures found { IfOk result (λ found. AreFound (map J.journal journals.old) found.items (length journals.old)) }
    ensures ready { OnOk result (AreAllReady (map J.journal journals.new) (length journals.old)) }
    ensures cause { IfErr result (IsFindCause (map J.journal journals.old) (map J.journal journals.new)) }
    ensures read { AreOnlyRead (map J.journal journals.old) (map J.journal journals.new) }
{
    let mut found = Vec::new(alloc);
    for (core, journal) in journals.iter_mut().enumerate() {
        found.reserve(1)?;
        let records = find_one(journal, core as u32)?;
        found.push(records).unwrap();
    }
    Ok(found)
}

/// The records that the journal of a core holds.
fn find_one<J: Journal>(journal: &mut J, core: u32) -> Result<Found, MountFault>
    ensures found { IfOk result (JournalHolds (J.journal journal.old)) }
    ensures ready { OnOk result ((J.journal journal.new).ready ≡ true) }
    ensures read { IsOnlyRead (J.journal journal.old) (J.journal journal.new) }
    ensures cause { IfErr result (IsOneCause core (J.journal journal.old) (J.journal journal.new)) }
{
    let device = Device::Journal(core);
    match journal.found() {
        Ok(found) => Ok(found),
        Err(ScanFault::DiskFault) => Err(MountFault::DiskFault { device }),
        Err(
            ScanFault::Damaged {
                at,
                found,
                expected,
            },
        ) => Err(MountFault::Damaged {
            device,
            at,
            found,
            expected,
        }),
        Err(ScanFault::NoMemory) => Err(MountFault::NoMemory),
    }
}

/// The greatest consistent cut of what was found.
fn kept_of<D: Disk>(home: &Home<D>, found: &[Found]) -> Bounds
    requires { length found.now ≡ home.now.told.sizes.cores }
    ensures { AreKept (tail_of home.now.told.tails) found.now (slice_index result) }
{
    closed(home.sizes(), &tails_of(home), found)
}

/// The tails of a home, and 0 from its count of cores on.
fn tails_of<D: Disk>(home: &Home<D>) -> Tails
    ensures tails { (core : ℕ) → tail_of result core ≡ tail_of home.now.told.tails core }
    ensures early { (core : ℕ) → tail_of result core < 2 ^ 62 }
{
    let _first = home.tail(0);
    let mut tails = Tails::zero();
    for core in 0..home.sizes().cores() {
        let tail = home.tail(core).unwrap();
        let _put = tails.put(core, tail);
    }
    tails
}

/// The bound of a core: 0 from core 64 on.
pub(crate) fn bound_of(bounds: &Bounds, core: u32) -> u64
    ensures { result ≡ slice_index bounds.now core }
{
    bounds.at(core).unwrap_or(0)
}
