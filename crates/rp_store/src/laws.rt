//! What a stop inside a call leaves.

ghost use Rattle.std.specs.Prelude.{◌≡◌, ℕ, ◌<◌, ◌≤◌, List, [], ◌∷◌, ◌++◌, length, take};
ghost use Rattle.rp_codec.specs.rp_base.specs.declared.record.Rec.{Rec};
ghost use Rattle.rp_codec.specs.Record.{record_text, IsRecord};
ghost use Rattle.rp_store.specs.Records.{records_text, AreRecordsOf};

/// Contents are read in one way.
pub fn one_reading()
    ensures { (contents torn rest : List ℕ) (records others : List Rec)
        → AreRecordsOf contents records torn → AreRecordsOf contents others rest
        → (records ≡ others) × (torn ≡ rest) }
{}

/// A stop inside `put`, or a failure there, leaves the old contents and some beginning of the
/// record's text: the old records with what is torn after them, or those and the new one.
pub fn stop_inside_put()
    ensures before { (contents : List ℕ) (records : List Rec) (r : Rec) (kept : ℕ)
        → AreRecordsOf contents records [] → IsRecord r → kept < length (record_text r)
        → AreRecordsOf (contents ++ take kept (record_text r))
        records (take kept (record_text r)) }
    ensures after { (contents : List ℕ) (records : List Rec) (r : Rec) (kept : ℕ)
        → AreRecordsOf contents records [] → IsRecord r → length (record_text r) ≤ kept
        → AreRecordsOf (contents ++ take kept (record_text r)) (records ++ r ∷ []) [] }
{}

/// A stop inside `open` leaves some front of the contents, no shorter than what was stable: each
/// record that was stable as a whole is a record of it.
pub fn stop_inside_open()
    ensures { (contents torn rest : List ℕ) (front more others : List Rec) (kept : ℕ)
        → AreRecordsOf contents (front ++ more) torn
        → length (records_text front) ≤ kept → AreRecordsOf (take kept contents) others rest
        → (after : List Rec) × (others ≡ front ++ after) }
{}
