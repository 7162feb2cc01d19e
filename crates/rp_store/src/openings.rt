//! A record that was put is read again, and one that was torn is whole or gone.

ghost use Rattle.std.specs.Prelude.{◌≡◌, ℕ, ◌<◌, ◌≤◌, List, [], ◌∷◌, ◌++◌, length};
ghost use Rattle.rp_base.specs.declared.record.Rec.{Rec};
ghost use Rattle.rp_codec.specs.Record.{record_text, IsRecord};
ghost use Rattle.rp_store.specs.Disk.{Disk, stopped};
ghost use Rattle.rp_store.specs.Opening.{IsOpened};
ghost use Rattle.rp_store.specs.Records.{AreRecordsOf};
ghost use Rattle.rp_store.specs.Stored.{Stored, IsPut};
ghost use Rattle.rp_store.specs.Tearing.{IsTorn};

use crate::{CutDevice, Device, one_reading, stop_inside_put};

/// A record that was put is read again after those before it, whole, though its node stops right
/// after it: none of it is lost, and nothing is torn.
pub fn what_is_put_is_read_again<D: Device>()
    // claim: What was put is read again: after a stop the next opening returns the records from
    //   before and the one that was put, and nothing is torn
    ensures { (before found : List Rec) (rec : Rec) (old new : Stored D) (opened : Disk)
        (kept cut_bytes : ℕ)
        → AreRecordsOf (D.disk old.device).contents before [] → IsRecord rec
        → IsPut D.disk (record_text rec) old new
        → IsOpened (stopped kept (D.disk new.device)) found cut_bytes opened
        → (found ≡ before ++ rec ∷ []) × (cut_bytes ≡ 0) }
{
    one_reading();
    stop_inside_put();
}

/// A record within whose put its node stops is read again exactly if all of its bytes were kept.
/// Otherwise those that were kept are truncated, and the records from before are read again.
pub fn what_is_torn_is_cut_off<D: CutDevice>()
    // claim (torn, whole): What a stop within a put leaves is read again exactly if it is the whole
    //   record; else the next opening truncates it and returns the records from before
    ensures torn { (before found : List Rec) (rec : Rec) (old : Stored D) (device : D)
        (opened : Disk) (kept cut_bytes : ℕ)
        → AreRecordsOf (D.disk old.device).contents before [] → IsRecord rec
        → (D.disk old.device).stable ≡ length (D.disk old.device).contents
        → IsTorn D.disk (record_text rec) kept old device
        → IsOpened (D.disk device) found cut_bytes opened
        → kept < length (record_text rec)
        → (found ≡ before) × (cut_bytes ≡ kept) }
    ensures whole { (before found : List Rec) (rec : Rec) (old : Stored D) (device : D)
        (opened : Disk) (kept cut_bytes : ℕ)
        → AreRecordsOf (D.disk old.device).contents before [] → IsRecord rec
        → (D.disk old.device).stable ≡ length (D.disk old.device).contents
        → IsTorn D.disk (record_text rec) kept old device
        → IsOpened (D.disk device) found cut_bytes opened
        → length (record_text rec) ≤ kept
        → (found ≡ before ++ rec ∷ []) × (cut_bytes ≡ 0) }
{
    one_reading();
    stop_inside_put();
}
