//! `check` and `dump`: what is recovered of an image.

ghost use Rattle.std.specs.Prelude.{◌≡◌, ◌⊎◌, List, ℕ, ◌++◌, IfOk, IfErr, OnOk, Option, length, map, string_bytes};
ghost use Rattle.std.specs.List.{flat_map, range_with_len};
ghost use Rattle.std.specs.Result.{result_err};
ghost use Rattle.zj_area.specs.Journal.{journal_of};
ghost use Rattle.zj_dev.specs.Disk.{OnlyReads};
ghost use Rattle.zj_dev.specs.Fault.{Rose};
ghost use Rattle.zj_dev.specs.Stream.{Took};
ghost use Rattle.zj_mount.specs.Inspecting.{Inspects, IsInspectCause};
ghost use Rattle.zj_mount.specs.Mounting.{AreInOrder};
ghost use Rattle.zj_mount.specs.Scanning.{AreRead};
ghost use Rattle.zj_tree.specs.Tree.{node_count, used};
ghost use Rattle.zj_cli.specs.declared.status.Fault.TheVariants as faults;
ghost use Rattle.zj_cli.specs.Check.{IsReadingCause, IsTold, RunsCheck, RunsDump, RunsTelling, journal_text, restored_text, size_text, spelling_of, tally_text, telling_text};
ghost use Rattle.zj_cli.specs.Tool as tool;
ghost use Rattle.zj_cli.specs.Tool.{IsBeforeWriting};

use crate::dump::spell_dump;
use crate::status::Fault;
use crate::stream::write_whole;
use std::alloc::{AllocError, Global};
use zj_dev::{Device, Disk, Shelf, Sink};
use zj_home::Home;
use zj_mount::{Areas, MountFault, Recovered, Set, close_all, inspect, open_all};
use zj_tree::{Bytes, Tree};

/// What is told of what is recovered.
#[derive(Clone, Copy)]
pub(crate) enum Telling {
    Check,
    Dump,
}

/// The line of a core's journal: from which transaction on it was read, how many were found, and how many of
/// those are kept.
fn journal_line(
    alloc: Global,
    core: u32,
    from: u64,
    found: u64,
    kept: u64,
) -> Result<String, AllocError>
    ensures { IfOk result (λ text. string_bytes text ≡ journal_text core from found kept) }
{
    let device = Device::Journal(core);
    format!(in alloc; "{device} from {from} found {found} kept {kept}\n")
}

/// The line of a tree: how many entries it has, and how many blocks these take up.
fn size_line(alloc: Global, tree: &Tree) -> Result<String, AllocError>
    ensures { IfOk result (λ text. string_bytes text ≡ size_text tree.now.tree) }
{
    let nodes = tree.nodes();
    let blocks = tree.used();
    format!(in alloc; "nodes {nodes} blocks {blocks}\n")
}

/// Adds the line of a core's journal.
fn put_journal(
    alloc: Global,
    recovered: &Recovered,
    core: u32,
    text: &mut Bytes,
) -> Result<(), AllocError>
    ensures { OnOk result (text.new ≡ text.old ++ tally_text recovered.now.journals core) }
{
    let from = recovered.from(core).unwrap_or(0);
    let found = recovered.found(core).unwrap_or(0);
    let kept = recovered.kept(core).unwrap_or(0);
    let line = journal_line(alloc, core, from, found, kept)?;
    text.extend(line.as_bytes())
}

/// The lines of all journals, in the order of their cores.
fn spell_journals(alloc: Global, recovered: &Recovered) -> Result<Bytes, AllocError>
    ensures { IfOk result (λ text. text ≡ flat_map (tally_text recovered.now.journals) (range_with_len 0 recovered.now.sizes.cores)) }
{
    let mut text = Bytes::new(alloc);
    for core in 0..recovered.sizes().cores() {
        put_journal(alloc, recovered, core, &mut text)?;
    }
    Ok(text)
}

/// What `check` prints of what was recovered.
fn spell_check(alloc: Global, recovered: &Recovered) -> Result<Bytes, AllocError>
    ensures { IfOk result (λ text. text ≡ restored_text recovered.now) }
{
    let mut text = spell_journals(alloc, recovered)?;
    let line = size_line(alloc, recovered.tree())?;
    text.extend(line.as_bytes())?;
    Ok(text)
}

/// What a command prints of what was recovered.
fn spell(alloc: Global, telling: Telling, recovered: &Recovered) -> Result<Bytes, AllocError>
    ensures { IfOk result (λ text. text ≡ telling_text telling recovered.now) }
{
    match telling {
        Telling::Check => spell_check(alloc, recovered),
        Telling::Dump => spell_dump(alloc, recovered.tree()),
    }
}

/// What is recovered of an image that was opened.
fn recover<D: Disk>(
    alloc: Global,
    home: &mut Home<D>,
    areas: &mut Areas<D>,
) -> Result<Recovered, MountFault>
    requires { AreInOrder home.old.told areas.old.areas }
    ensures inspects { IfOk result (Inspects home.old.told (D.view home.old.device) (map (journal_of D.view) areas.old.areas)) }
    ensures cause { IfErr result (IsInspectCause home.old.told (D.view home.old.device) (D.view home.new.device) (map (journal_of D.view) areas.old.areas) (map (journal_of D.view) areas.new.areas)) }
    ensures told { home.new.told ≡ home.old.told }
    ensures home_read { OnlyReads (D.view home.old.device) (D.view home.new.device) }
    ensures read { AreRead D.view areas.old.areas areas.new.areas }
    ensures count { length areas.new.areas ≡ length areas.old.areas }
{
    inspect(alloc, home, areas.slice_mut())
}

/// Reads an image that was opened, and tells what is recovered of it.
fn read_set<D: Disk>(
    alloc: Global,
    telling: Telling,
    home: &mut Home<D>,
    areas: &mut Areas<D>,
) -> Result<Bytes, Fault>
    requires { AreInOrder home.old.told areas.old.areas }
    ensures text { IfOk result (λ text. IsTold (spelling_of telling) home.old.told (D.view home.old.device) (map (journal_of D.view) areas.old.areas) text) }
    ensures cause { IfErr result (IsReadingCause home.old.told (D.view home.old.device) (D.view home.new.device) (map (journal_of D.view) areas.old.areas) (map (journal_of D.view) areas.new.areas)) }
    ensures told { home.new.told ≡ home.old.told }
    ensures home_read { OnlyReads (D.view home.old.device) (D.view home.new.device) }
    ensures read { AreRead D.view areas.old.areas areas.new.areas }
    ensures count { length areas.new.areas ≡ length areas.old.areas }
{
    let recovered = recover(alloc, home, areas)?;
    Ok(spell(alloc, telling, &recovered)?)
}

/// Reads an image that was opened, and prints what is recovered of it.
fn print_set<D: Disk, K: Sink>(
    alloc: Global,
    telling: Telling,
    home: &mut Home<D>,
    areas: &mut Areas<D>,
    out: &mut K,
) -> Result<(), Fault>
    requires { AreInOrder home.old.told areas.old.areas }
    ensures printed { OnOk result ((text : List ℕ) × IsTold (spelling_of telling) home.old.told (D.view home.old.device) (map (journal_of D.view) areas.old.areas) text × Took (K.held out.old) (K.held out.new) text) }
    ensures quiet { OnOk result (K.faults out.new ≡ K.faults out.old) }
    ensures cause { IfErr result (λ fault. ((fault ≡ faults.Output) × ((front rest : List ℕ) × IsTold (spelling_of telling) home.old.told (D.view home.old.device) (map (journal_of D.view) areas.old.areas) (front ++ rest) × Took (K.held out.old) (K.held out.new) front) × Rose (K.faults out.old) (K.faults out.new))
        ⊎ (IsReadingCause home.old.told (D.view home.old.device) (D.view home.new.device) (map (journal_of D.view) areas.old.areas) (map (journal_of D.view) areas.new.areas) fault × (out.new ≡ out.old))) }
    ensures told { home.new.told ≡ home.old.told }
    ensures home_read { OnlyReads (D.view home.old.device) (D.view home.new.device) }
    ensures read { AreRead D.view areas.old.areas areas.new.areas }
    ensures count { length areas.new.areas ≡ length areas.old.areas }
{
    let text = read_set(alloc, telling, home, areas)?;
    write_whole(out, text.as_slice())
}

/// Prints what is recovered of the image on a shelf. It writes no device, and all that it opened is
/// closed again. It stands for any input, since it reads none.
///
/// The first fault in this order counts: opening, reading the journals, reading home and its tree, writing to `out`, closing.
pub(crate) fn tell<H: Shelf, K: Sink>(
    alloc: Global,
    telling: Telling,
    shelf: &mut H,
    out: &mut K,
) -> Result<(), Fault>
    ensures runs { (left : Option (List ℕ)) (input_faults : ℕ) → RunsTelling (spelling_of telling)
        (record { left = left; held = K.held out.old; names = H.names shelf.old; input_faults = input_faults; output_faults = K.faults out.old; shelf_faults = H.faults shelf.old })
        (record { left = left; held = K.held out.new; names = H.names shelf.new; input_faults = input_faults; output_faults = K.faults out.new; shelf_faults = H.faults shelf.new })
        (result_err result) }
    ensures unwritten { IfErr result (λ fault. IsBeforeWriting tool.Check fault → out.new ≡ out.old) }
    ensures unwritten_dump { IfErr result (λ fault. IsBeforeWriting tool.Dump fault → out.new ≡ out.old) }
{
    let Set {
        mut home,
        mut areas,
    } = open_all(alloc, shelf)?;
    let printed = print_set(alloc, telling, &mut home, &mut areas, out);
    let closed = close_all(shelf, Set { home, areas }).map_err(Fault::from);
    printed.and(closed)
}

/// Prints what the journals of the image on a shelf hold, and what is recovered of them. It does what `tell` does.
pub fn check<H: Shelf, K: Sink>(alloc: Global, shelf: &mut H, out: &mut K) -> Result<(), Fault>
    ensures runs { (left : Option (List ℕ)) (input_faults : ℕ) → RunsCheck
        (record { left = left; held = K.held out.old; names = H.names shelf.old; input_faults = input_faults; output_faults = K.faults out.old; shelf_faults = H.faults shelf.old })
        (record { left = left; held = K.held out.new; names = H.names shelf.new; input_faults = input_faults; output_faults = K.faults out.new; shelf_faults = H.faults shelf.new })
        (result_err result) }
    ensures unwritten { IfErr result (λ fault. IsBeforeWriting tool.Check fault → out.new ≡ out.old) }
{
    tell(alloc, Telling::Check, shelf, out)
}

/// Prints the tree that is recovered of the image on a shelf. It does what `tell` does.
pub fn dump<H: Shelf, K: Sink>(alloc: Global, shelf: &mut H, out: &mut K) -> Result<(), Fault>
    ensures runs { (left : Option (List ℕ)) (input_faults : ℕ) → RunsDump
        (record { left = left; held = K.held out.old; names = H.names shelf.old; input_faults = input_faults; output_faults = K.faults out.old; shelf_faults = H.faults shelf.old })
        (record { left = left; held = K.held out.new; names = H.names shelf.new; input_faults = input_faults; output_faults = K.faults out.new; shelf_faults = H.faults shelf.new })
        (result_err result) }
    ensures unwritten { IfErr result (λ fault. IsBeforeWriting tool.Dump fault → out.new ≡ out.old) }
{
    tell(alloc, Telling::Dump, shelf, out)
}
