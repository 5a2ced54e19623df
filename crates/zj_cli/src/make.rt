//! `make`: a new image on the shelf.

ghost use Rattle.std.specs.Prelude.{◌≡◌, ◌<◌, ◌≤◌, ℕ, List, Option, Some, IfOk, IfErr, OnOk, OnErr, length};
ghost use Rattle.std.specs.Result.{result_err};
ghost use Rattle.zj_dev.specs.Fault.{Rose};
ghost use Rattle.zj_dev.specs.Shelf.{Closes, Creates, OthersStay};
ghost use Rattle.zj_dev.specs.declared.device.Device.TheVariants as devices;
ghost use Rattle.zj_layout.specs.Shows.{Shows};
ghost use Rattle.zj_tree.specs.Tree.{root_alone};
ghost use Rattle.zj_mount.specs.Set.{home_name, journal_name};
ghost use Rattle.zj_cli.specs.declared.status.Fault.TheVariants as faults;
ghost use Rattle.zj_cli.specs.Make.{IsClosing, IsCreateCause, IsHomeCause, IsMadeHome, IsNew, IsNewJournal, MakeEnds, MakesJournals, MakesNext};

use crate::status::{Fault, ImageFault};
use std::alloc::Global;
use zj_block::{Blocks, Sizes};
use zj_dev::{Device, Shelf};
use zj_home::{Home, home_len};
use zj_layout::format;
use zj_mount::{HOME, journal_name};

/// Makes a device of zero bytes under a name that is free. It is then out of the shelf.
fn create<H: Shelf>(shelf: &mut H, device: Device, name: &str, len: u64) -> Result<H::D, Fault>
    ensures made { IfOk result (λ d. Creates len (H.names shelf.old name.now) (H.names shelf.new name.now) (Some (H.D.view d))) }
    ensures others { OthersStay name.now (H.names shelf.old) (H.names shelf.new) }
    ensures cause { IfErr result (IsCreateCause device (H.names shelf.old name.now) (H.names shelf.new name.now) (H.faults shelf.old) (H.faults shelf.new)) }
    ensures quiet { OnOk result (H.faults shelf.new ≡ H.faults shelf.old) }
    ensures no_fewer { H.faults shelf.old ≤ H.faults shelf.new }
{
    match shelf.create(name, len) {
        Ok(Some(d)) => Ok(d),
        Ok(None) => Err(Fault::Image(ImageFault::Exists { device })),
        Err(_) => Err(Fault::Device { device }),
    }
}

/// Puts a device that was made onto its shelf, under its name.
fn put_back<H: Shelf>(shelf: &mut H, device: Device, name: &str, d: H::D) -> Result<(), Fault>
    ensures closed { Closes (H.D.view d) (H.names shelf.old name.now) (H.names shelf.new name.now) }
    ensures others { OthersStay name.now (H.names shelf.old) (H.names shelf.new) }
    ensures cause { IfErr result (λ fault. (fault ≡ faults.Device device) × Rose (H.faults shelf.old) (H.faults shelf.new)) }
    ensures quiet { OnOk result (H.faults shelf.new ≡ H.faults shelf.old) }
    ensures no_fewer { H.faults shelf.old ≤ H.faults shelf.new }
{
    match shelf.close(name, d) {
        Ok(()) => Ok(()),
        Err(_) => Err(Fault::Device { device }),
    }
}

/// Makes the journal of a core. `Ok` tells how closing it went; it stands on the shelf in any case.
fn make_journal<H: Shelf>(
    shelf: &mut H,
    core: u32,
    sizes: &Sizes,
) -> Result<Result<(), Fault>, Fault>
    requires { core < sizes.now.cores }
    ensures made { OnOk result (IsNew (IsNewJournal sizes.now core) (H.names shelf.old (journal_name core)) (H.names shelf.new (journal_name core))) }
    ensures others { OthersStay (journal_name core) (H.names shelf.old) (H.names shelf.new) }
    ensures cause { IfErr result (IsCreateCause (devices.Journal core) (H.names shelf.old (journal_name core)) (H.names shelf.new (journal_name core)) (H.faults shelf.old) (H.faults shelf.new)) }
    ensures closing { IfOk result (λ closed. IsClosing sizes.now (H.faults shelf.old) (H.faults shelf.new) (result_err closed)) }
    ensures no_fewer { H.faults shelf.old ≤ H.faults shelf.new }
{
    let _cores = sizes.cores();
    let device = Device::Journal(core);
    let name = journal_name(core);
    let d = create(shelf, device, name, sizes.area())?;
    Ok(put_back(shelf, device, name, d))
}

/// Makes the journals of all cores, in order. `Ok` tells how closing them went.
fn make_journals<H: Shelf>(shelf: &mut H, sizes: &Sizes) -> Result<Result<(), Fault>, Fault>
    ensures made { OnOk result (MakesJournals sizes.now (H.names shelf.old) (H.names shelf.new) sizes.now.cores) }
    ensures cause { IfErr result (λ fault. (core : ℕ) × (core < sizes.now.cores)
        × MakesNext sizes.now (H.names shelf.old) (H.names shelf.new) core (journal_name core) (λ slot now. IsCreateCause (devices.Journal core) slot now (H.faults shelf.old) (H.faults shelf.new) fault)) }
    ensures closing { IfOk result (λ closed. IsClosing sizes.now (H.faults shelf.old) (H.faults shelf.new) (result_err closed)) }
    ensures no_fewer { H.faults shelf.old ≤ H.faults shelf.new }
{
    let mut closed = Ok(());
    for core in 0..sizes.cores() {
        let one = make_journal(shelf, core, sizes)?;
        closed = closed.and(one);
    }
    Ok(closed)
}

/// Makes home with these blocks. `Ok` tells how closing it went; it stands on the shelf in any case.
fn make_home<H: Shelf>(
    alloc: Global,
    shelf: &mut H,
    sizes: &Sizes,
    blocks: &Blocks,
) -> Result<Result<(), Fault>, Fault>
    requires shows { Shows sizes.now blocks.now root_alone }
    ensures made { OnOk result (IsNew (IsMadeHome sizes.now) (H.names shelf.old home_name) (H.names shelf.new home_name)) }
    ensures others { OthersStay home_name (H.names shelf.old) (H.names shelf.new) }
    ensures cause { IfErr result (IsHomeCause sizes.now (H.names shelf.old home_name) (H.names shelf.new home_name) (H.faults shelf.old) (H.faults shelf.new)) }
    ensures closing { IfOk result (λ closed. IsClosing sizes.now (H.faults shelf.old) (H.faults shelf.new) (result_err closed)) }
    ensures no_fewer { H.faults shelf.old ≤ H.faults shelf.new }
{
    let device = Device::Home;
    let d = create(shelf, device, HOME, home_len(sizes))?;
    match Home::make(alloc, d, sizes, blocks) {
        Ok(home) => Ok(put_back(shelf, device, HOME, home.into_device())),
        Err(refused) => {
            // It is the device that failed: nothing else keeps a home from being made.
            let _ = shelf.close(HOME, refused.device);
            Err(Fault::Device { device })
        }
    }
}

/// Makes an image of these sizes whose tree has the root alone: the journals from core 0 on, and then home.
///
/// `Exists` tells the first device whose name is used, `Device` one that failed; what was made before stands, and
/// no other name is touched. `Memory` comes before anything is made.
pub fn make<H: Shelf>(alloc: Global, shelf: &mut H, sizes: &Sizes) -> Result<(), Fault>
    ensures ends { (left held : Option (List ℕ)) (input_faults output_faults : ℕ) → MakeEnds sizes.now
        (record { left = left; held = held; names = H.names shelf.old; input_faults = input_faults; output_faults = output_faults; shelf_faults = H.faults shelf.old })
        (record { left = left; held = held; names = H.names shelf.new; input_faults = input_faults; output_faults = output_faults; shelf_faults = H.faults shelf.new })
        (result_err result) }
{
    let blocks = format(alloc, sizes)?;
    let journals = make_journals(shelf, sizes)?;
    let home = make_home(alloc, shelf, sizes, &blocks)?;
    journals.and(home)
}
