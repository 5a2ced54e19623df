//! The home device: opening it, and reading its super and its blocks.

ghost use Rattle.std.specs.Prelude.{◌≡◌, ◌^◌, ◌<◌, IfOk, IfErr, OnOk, OnErr, IfSome, All, length, slice_get, take, vec_len};
ghost use Rattle.zj_block.specs.Block.{IsContent, bytes_of};
ghost use Rattle.zj_dev.specs.Fault.{Rose};
ghost use Rattle.zj_dev.specs.Disk.{Continues, IsDisk, IsSettled, LeavesAll, OnlyReads, StaysSince};
ghost use Rattle.zj_home.specs.Home.{IsCause};
ghost use Rattle.zj_home.specs.Made.{IsMade, IsFailure, MakesOnly, first_super};
ghost use Rattle.zj_home.specs.Told.{super_told};
ghost use Rattle.zj_home.specs.Super.{IsTail, OpensAs, home_length, block_bytes_in};

use crate::fault::{HomeFault, HomeRefused};
use crate::make::make_on;
use crate::slot::{HEAD_LEN, Told, read_super};
use std::alloc::{AllocError, Global};
use std::marker::Model;
use zj_block::{BLOCK_LEN, Block, BlockNo, Blocks, Sizes, Tail};
use zj_dev::{Disk, DiskFault, sync};

/// A home that was opened or made: its device, and what its super tells.
#[derive(Debug, Drop)]
pub struct Home<D: Disk> {
    device: D,
    told: Told,
}

impl<D: Disk> Model for Home<D> {
    ghost use Rattle.std.specs.Prelude.{◌≡◌, ◌^◌, ◌<◌, All, take};
    ghost use Rattle.zj_home.specs.Home.{HomeView};
    ghost use Rattle.zj_home.specs.Super.{IsTail, home_length};
    ghost use Rattle.zj_home.specs.Told.{super_told};

    ghost Value = { HomeView D };

    ghost view = { λ h. record { device = h.device; told = super_told h.told } };

    ghost invariant = { λ h. ((D.view h.device).size ≡ home_length h.told.sizes) × All (IsTail h.told.sizes) (take h.told.sizes.cores h.told.tails) × (h.told.epoch < 2 ^ 62) };
}

/// That many zeros.
fn zeros(alloc: Global, count: usize) -> Result<Vec<u8>, AllocError>
    ensures { IfOk result (λ v. vec_len v ≡ count) }
{
    vec![in alloc; 0u8; count]
}

/// Reads the super of a device, if it is a home's.
fn read_told<D: Disk>(alloc: Global, d: &mut D) -> Result<Told, HomeFault>
    ensures opens { IfOk result (λ told. IfSome (D.view d.old).bytes (λ image. OpensAs image (super_told told))) }
    ensures size { IfOk result (λ told. (D.view d.old).size ≡ home_length told.sizes) }
    ensures tails { IfOk result (λ told. All (IsTail told.sizes) (take told.sizes.cores told.tails)) }
    ensures epoch { IfOk result (λ told. told.epoch < 2 ^ 62) }
    ensures read_only { OnlyReads (D.view d.old) (D.view d.new) }
    ensures cause { IfErr result (IsCause (D.view d.old) (D.view d.new)) }
{
    let len = d.len();
    if len < HEAD_LEN as u64 {
        return Err(HomeFault::NotAnImage { at: 0 });
    }
    let mut head = zeros(alloc, HEAD_LEN)?;
    d.read(0, &mut head)?;
    read_super(&head, len)
}

impl<D: Disk> Home<D> {
    /// Makes a device a home with these sizes and blocks, in place of what it held. After Ok whatever a crash
    /// may leave is that home, of epoch 1 and with all tails 0. Where the letters stood behind no gate, a crash
    /// at any moment until then leaves that home, or bytes that are refused as no image.
    ///
    /// `DiskFault` tells that the device failed; it may hold anything, and is given back. No other fault comes,
    /// and no memory is taken.
    pub fn make(
        _alloc: Global,
        d: D,
        sizes: &Sizes,
        blocks: &Blocks,
    ) -> Result<Home<D>, HomeRefused<D>>
        requires device_size { (D.view d).size ≡ home_length sizes.now }
        requires block_count { length blocks.now ≡ sizes.now.blocks }
        ensures made { IfOk result (λ home. IsMade (first_super sizes.now) blocks.now (D.view home.device)) }
        ensures told { IfOk result (λ home. home.told ≡ first_super sizes.now) }
        ensures continues { IfOk result (λ home. Continues (D.view d) (D.view home.device)) }
        ensures refused_continues { IfErr result (λ refused. Continues (D.view d) (D.view refused.device)) }
        ensures moments { IfOk result (λ home. MakesOnly (first_super sizes.now) blocks.now (D.view d) (D.view home.device)) }
        ensures refused_moments { IfErr result (λ refused. MakesOnly (first_super sizes.now) blocks.now (D.view d) (D.view refused.device)) }
        ensures cause { IfErr result (λ refused. IsFailure (D.view d) (D.view refused.device) refused.fault) }
    {
        let mut device = d;
        match make_on(&mut device, sizes, blocks) {
            Ok(told) => Ok(Home { device, told }),
            Err(fault) => Err(HomeRefused { device, fault }),
        }
    }

    /// Opens a device that was made a home. It only reads.
    ///
    /// `NotAnImage`, `Version` and `Sizes` tell the first thing about the device's bytes that is no home's,
    /// `DiskFault` that the device failed, and `NoMemory` that there was none, before any call. The device is
    /// then given back.
    pub fn open(alloc: Global, d: D) -> Result<Home<D>, HomeRefused<D>>
        ensures opens { IfOk result (λ home. IfSome (D.view d).bytes (λ image. OpensAs image home.told)) }
        ensures device_size { IfOk result (λ home. (D.view d).size ≡ home_length home.told.sizes) }
        ensures read_only { IfOk result (λ home. OnlyReads (D.view d) (D.view home.device)) }
        ensures refused_read_only { IfErr result (λ refused. OnlyReads (D.view d) (D.view refused.device)) }
        ensures cause { IfErr result (λ refused. IsCause (D.view d) (D.view refused.device) refused.fault) }
    {
        let mut device = d;
        match read_told(alloc, &mut device) {
            Ok(told) => Ok(Home { device, told }),
            Err(fault) => Err(HomeRefused { device, fault }),
        }
    }

    /// How many reads, writes and syncs were asked of the device: the moment that it is.
    pub fn calls(&self) -> u64
        ensures { result ≡ (D.view self.now.device).calls }
    {
        self.device.calls()
    }

    /// The sizes of the image.
    pub fn sizes(&self) -> &Sizes
        ensures { result.now ≡ self.now.told.sizes }
    {
        &self.told.sizes
    }

    /// How often the super was replaced, counted from 1.
    pub fn epoch(&self) -> u64
        ensures epoch { result ≡ self.now.told.epoch }
        ensures below_end { result < 2 ^ 62 }
    {
        self.told.epoch
    }

    /// Where the journal of a core begins: `None` exactly from the image's count of cores on. A longest record
    /// has room behind each tail, and its number is below 2^62.
    pub fn tail(&self, core: u32) -> Option<Tail>
        ensures tail { result ≡ slice_get self.now.told.tails core }
        ensures tail_count { length self.now.told.tails ≡ self.now.told.sizes.cores }
        ensures tail_sound { IfSome result (IsTail self.now.told.sizes) }
    {
        let cores = self.told.sizes.cores();
        let tail = self.told.tails.at(core);
        if core < cores { tail } else { None }
    }

    /// Makes what was written before outlast a crash: after Ok a crash leaves what a read gives.
    ///
    /// `DiskFault` tells that the device failed; what was pending is pending still.
    pub fn sync(&mut self) -> Result<(), DiskFault>
        ensures settled { OnOk result (IsSettled (D.view self.new.device)) }
        ensures bytes { (D.view self.new.device).bytes ≡ (D.view self.old.device).bytes }
        ensures images { StaysSince (D.view self.old.device) (D.view self.new.device) }
        ensures continues { Continues (D.view self.old.device) (D.view self.new.device) }
        ensures told { self.new.told ≡ self.old.told }
        ensures is_disk { IsDisk (D.view self.new.device) }
        ensures cause { OnErr result (Rose (D.view self.old.device).faults (D.view self.new.device).faults) }
    {
        let _len = self.device.len();
        sync(&mut self.device)
    }

    /// Reads a block. After `DiskFault` `into` is as it was.
    pub fn read_block(&mut self, b: BlockNo, into: &mut Block) -> Result<(), DiskFault>
        requires { b.0 < self.old.told.sizes.blocks }
        ensures block { OnOk result (IfSome (D.view self.old.device).bytes (λ image. bytes_of into.new ≡ block_bytes_in image b.0)) }
        ensures content { OnOk result (IsContent into.new) }
        ensures into_kept { OnErr result (into.new ≡ into.old) }
        ensures device_left { LeavesAll (D.view self.old.device) (D.view self.new.device) }
        ensures read_only { OnlyReads (D.view self.old.device) (D.view self.new.device) }
        ensures told { self.new.told ≡ self.old.told }
        ensures cause { OnErr result (Rose (D.view self.old.device).faults (D.view self.new.device).faults) }
    {
        let mut bytes = [0u8; BLOCK_LEN];
        let at = HEAD_LEN as u64 + BLOCK_LEN as u64 * u64::from(b.0);
        let _len = self.device.len();
        self.device.read(at, &mut bytes)?;
        *into = Block::from_bytes(&bytes);
        Ok(())
    }

    /// The device.
    pub fn into_device(self) -> D
        ensures { result ≡ self.device }
    {
        let Home { device, told: _ } = self;
        device
    }
}
