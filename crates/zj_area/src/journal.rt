//! What the layers above know of a journal: what it holds, and where its next record is due.

ghost use Rattle.std.specs.Prelude.{◌≡◌, true, IfOk, IfErr, OnOk, OnErr};
ghost use Rattle.zj_dev.specs.Disk.{IsDisk, OnlyReads};
ghost use Rattle.zj_area.specs.Ring.{IsPlace};
ghost use Rattle.zj_area.specs.Journal.{JournalView, journal_of};
ghost use Rattle.zj_area.specs.Cause.{Finds, IsKnown, IsScanCause, RestsEmpty};

use crate::area::Area;
use crate::fault::ScanFault;
use zj_block::Tail;
use zj_dev::Disk;
use zj_tx::Found;

/// One core's journal.
pub trait Journal {
    /// What the journal is.
    ghost journal: { Self → JournalView };

    /// The records from the tail on, up to the first gate that is not open. It writes nothing. Where the end
    /// was known and no commit has failed, it stays.
    ///
    /// `Damaged` tells where a gate is open and no record stands that is due there, `DiskFault` that the
    /// device failed, and `NoMemory` that there was none for what was found. Then the journal is as it was.
    fn found(&mut self) -> Result<Found, ScanFault>
        ensures found { IfOk result (Finds (journal self.old) (journal self.new)) }
        ensures same { journal self.new ≡ record (journal self.old) { disk = (journal self.new).disk; ready = (journal self.new).ready; end = (journal self.new).end } }
        ensures ready { OnOk result ((journal self.new).ready ≡ true) }
        ensures end { OnOk result (IsKnown (journal self.old) → (journal self.new).end ≡ (journal self.old).end) }
        ensures err { OnErr result (journal self.new ≡ record (journal self.old) { disk = (journal self.new).disk }) }
        ensures read_only { OnlyReads (journal self.old).disk (journal self.new).disk }
        ensures is_disk { IsDisk (journal self.new).disk }
        ensures at_rest { IfOk result (RestsEmpty (journal self.old) (journal self.new)) }
        ensures cause { IfErr result (IsScanCause (journal self.old) (journal self.new).disk) };

    /// Where the next record is due, once the journal was read.
    fn end(&self) -> Tail
        ensures end { result ≡ (journal self.now).end }
        ensures place { IsPlace (journal self.now).sizes result.place };
}

impl<D: Disk> Journal for Area<D> {
    ghost journal = { journal_of D.view };

    fn found(&mut self) -> Result<Found, ScanFault> {
        self.scan()
    }

    fn end(&self) -> Tail {
        self.end()
    }
}
