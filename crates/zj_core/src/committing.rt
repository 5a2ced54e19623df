//! The device calls of a commit.

ghost use Rattle.std.specs.Prelude.{◌≡◌, ◌⊎◌, ◌+◌, ◌≤◌, ◌++◌, ◌∷◌, [], List, None, IfOk, OnErr, OnOk, false, true};
ghost use Rattle.zj_dev.specs.Disk.{Continues, EachImageSince, IsDisk};
ghost use Rattle.zj_dev.specs.Fault.{Rose};
ghost use Rattle.zj_tx.specs.Record.{Accepts, Record};
ghost use Rattle.zj_area.specs.Journal.{IsAtRest, fullness, journal_of};
ghost use Rattle.zj_area.specs.Ring.{Holds, behind};
ghost use Rattle.zj_core.specs.Committing.{calls_of_commit};

use zj_area::{Area, DiskFault};
use zj_dev::Disk;
use zj_tx::Sealed;

/// Lays the record of a transaction behind the last one, and opens its gate. Answers the transaction's number.
///
/// Whatever a crash leaves, at any moment of it, holds the records before, or those with the new one.
/// After `DiskFault` the journal has failed.
pub(crate) fn write_record<D: Disk>(area: &mut Area<D>, sealed: &Sealed) -> Result<u64, DiskFault>
    requires ready { area.old.ready ≡ true }
    requires sound { area.old.failed ≡ false }
    requires empty { area.old.laid ≡ None }
    requires room { fullness area.old.sizes area.old.tail area.old.end ≡ None }
    requires accepted { Accepts area.old.sizes area.old.core area.old.end.number sealed.now }
    ensures number { IfOk result (λ number. number ≡ area.old.end.number) }
    ensures ok { OnOk result (area.new ≡ record area.old { device = area.new.device; end = behind area.old.sizes area.old.end sealed.now }) }
    ensures at_rest { OnOk result ((records : List Record) → IsAtRest (journal_of D.view area.old) records → IsAtRest (journal_of D.view area.new) (records ++ sealed.now ∷ [])) }
    ensures err { OnErr result (area.new ≡ record area.old { device = area.new.device; failed = true }) }
    ensures images { (records : List Record) → IsAtRest (journal_of D.view area.old) records → EachImageSince (D.view area.old.device).calls (D.view area.new.device) (λ image. Holds area.old.sizes area.old.core image area.old.tail records area.old.end ⊎ Holds area.old.sizes area.old.core image area.old.tail (records ++ sealed.now ∷ []) (behind area.old.sizes area.old.end sealed.now)) }
    ensures continues { Continues (D.view area.old.device) (D.view area.new.device) }
    ensures calls { OnOk result ((D.view area.new.device).calls ≡ (D.view area.old.device).calls + calls_of_commit) }
    ensures calls_at_most { (D.view area.new.device).calls ≤ (D.view area.old.device).calls + calls_of_commit }
    ensures is_disk { IsDisk (D.view area.new.device) }
    ensures cause { OnErr result (Rose (D.view area.old.device).faults (D.view area.new.device).faults) }
{
    area.lay(sealed)?;
    area.open_gate()
}
