//! The store of a node's records.

ghost use Rattle.std.specs.Prelude.{◌≡◌, ◌⊎◌, ◌+◌, ◌<◌, length, IfOk, IfErr, OnOk, OnErr, IsErrOf, false, true};
ghost use Rattle.rp_codec.specs.rp_base.specs.declared.fault.Fault.TheVariants as faults;
ghost use Rattle.rp_codec.specs.rp_base.specs.declared.record.Rec.{Rec};
ghost use Rattle.rp_codec.specs.rp_base.specs.Right.{IsRightRecord};
ghost use Rattle.rp_codec.specs.rp_base.specs.WriteFaults.{fault_of};
ghost use Rattle.rp_codec.specs.Record.{record_text};
ghost use Rattle.rp_store.specs.Disk.{appended, stopped, synced, AppendFailed, IsTrimmed, KeepsFront};
ghost use Rattle.rp_store.specs.Opening.{IsOpened, IsNotOpened};

use crate::device::{CutDevice, Device};
use crate::reading::whole_records;
use rp_base::{Fault, Rec, WriteFault};
use rp_codec::{is_call, learned_text, promised_text, started_text, text_of_record, voted_text};
use std::alloc::Global;
use std::marker::Model;

/// A device that holds records. At each `Ok` all that it holds is stable (Lamport, "Paxos Made
/// Simple", section 2.5: an acceptor records its response before it sends it).
#[derive(Drop)]
pub struct Store<D: Device> {
    device: D,
    failed: bool,
}

impl<D: Device> Model for Store<D> {
    ghost use Rattle.rp_store.specs.Stored.{Stored};

    ghost Value = { Stored D };

    ghost view = { λ s. record { device = s.device; failed = s.failed } };
}

/// The result of opening a device.
#[derive(Drop)]
pub struct Opened<D: Device> {
    pub store: Store<D>,
    /// The whole records that the device held, in order.
    pub records: Vec<Rec>,
    /// How many bytes were after them.
    pub cut_bytes: u64,
}

/// A record that was not torn.
#[derive(Drop)]
pub enum NotTorn<D: Device> {
    /// The device failed. Some prefix of the record's text may be at its end.
    Failed(D),
    /// Nothing has changed: `OutOfMemory`, or `Failed` if the device had failed before.
    Refused(Fault, Store<D>),
}

/// Truncates what is torn after the whole records, if anything is.
fn trim<D: Device>(device: &mut D, whole: usize, torn: usize) -> Result<(), Fault>
    requires { whole + torn ≡ length (D.disk device.old).contents }
    ensures ok { OnOk result (IsTrimmed whole torn (D.disk device.old) (D.disk device.new)) }
    ensures refused { IsErrOf result Fault.OutOfMemory → D.disk device.new ≡ D.disk device.old }
    ensures kept { OnErr result (KeepsFront whole (D.disk device.old) (D.disk device.new)) }
    ensures faults { IfErr result (λ fault. (fault ≡ faults.OutOfMemory) ⊎ (fault
        ≡ faults.Device)) }
    ensures cause { IsErrOf result Fault.Device
        → (D.disk device.old).failures < (D.disk device.new).failures }
{
    if torn == 0 {
        return Ok(());
    }
    device.cut(whole as u64)
}

/// Reads the device, truncates what is torn and syncs. One sync, whatever it holds.
fn restore<D: Device>(alloc: Global, device: &mut D) -> Result<(Vec<Rec>, u64), Fault>
    ensures ok { IfOk result (λ found.
        IsOpened (D.disk device.old) found.0.items found.1 (D.disk device.new)) }
    ensures err { IfErr result (λ fault.
        IsNotOpened (D.disk device.old) fault (D.disk device.new)) }
{
    let bytes = device.read(alloc)?;
    let (records, torn) = whole_records(alloc, &bytes)?;
    trim(device, bytes.len() - torn, torn)?;
    device.sync()?;
    Ok((records, torn as u64))
}

/// Appends the text and syncs.
#[inline(always)]
fn write<D: Device>(device: &mut D, text: &[u8]) -> Result<(), Fault>
    ensures ok { OnOk result (D.disk device.new ≡ synced (appended text.now (D.disk device.old))) }
    ensures refused { IsErrOf result Fault.OutOfMemory → D.disk device.new ≡ D.disk device.old }
    ensures failed { IsErrOf result Fault.Device
        → AppendFailed text.now (D.disk device.old) (D.disk device.new) }
    ensures faults { IfErr result (λ fault. (fault ≡ faults.OutOfMemory) ⊎ (fault
        ≡ faults.Device)) }
{
    device.append(text)?;
    device.sync()
}

/// Appends the text of a record and syncs. The usual records have texts of one length each.
#[inline(always)]
fn write_record<D: Device>(device: &mut D, rec: &Rec) -> Result<(), Fault>
    ensures ok { OnOk result (D.disk device.new
        ≡ synced (appended (record_text rec.now) (D.disk device.old))) }
    ensures refused { IsErrOf result Fault.OutOfMemory → D.disk device.new ≡ D.disk device.old }
    ensures failed { IsErrOf result Fault.Device
        → AppendFailed (record_text rec.now) (D.disk device.old) (D.disk device.new) }
    ensures faults { IfErr result (λ fault. (fault ≡ faults.OutOfMemory) ⊎ (fault
        ≡ faults.Device)) }
{
    match rec {
        Rec::Started(ballot) => write(device, &started_text(*ballot)),
        Rec::Promised(position, ballot) => write(device, &promised_text(*position, *ballot)),
        Rec::Voted(position, ballot, action) if is_call(action) => {
            write(device, &voted_text(*position, *ballot, action))
        }
        Rec::Learned(position, action) if is_call(action) => {
            write(device, &learned_text(*position, action))
        }
        _ => {
            // A copy, so that a usual record needs no place in memory.
            let other = *rec;
            write(device, text_of_record(&other).as_slice())
        }
    }
}

impl<D: Device> Store<D> {
    ghost use Rattle.rp_store.specs.Stored.{IsPut, IsNotPut};

    /// Reads the records of a device, of version 1 and 2 in any order, truncates what is torn after
    /// them, and syncs, so that all that it read is stable. It appends nothing. Refused with
    /// `OutOfMemory`, and then nothing has changed, or with `Device` if the device failed: it
    /// holds each whole record that it held, and after them some prefix of what was torn.
    pub fn open(alloc: Global, device: D) -> Result<Opened<D>, (Fault, D)>
        // claim: Opening a store returns the records of the device's contents, of both versions in
        //   any order, truncates what is after them, and leaves all of it stable
        ensures ok { IfOk result (λ opened. IsOpened (D.disk device)
            opened.records.items opened.cut_bytes (D.disk opened.store.device)) }
        ensures working { IfOk result (λ opened. opened.store.failed ≡ false) }
        ensures err { IfErr result (λ refused.
            IsNotOpened (D.disk device) refused.0 (D.disk refused.1)) }
    {
        let mut device = device;
        match restore(alloc, &mut device) {
            Ok((records, cut_bytes)) => Ok(Opened {
                store: Store {
                    device,
                    failed: false,
                },
                records,
                cut_bytes,
            }),
            Err(fault) => Err((fault, device)),
        }
    }

    /// Appends the record's text, of version 2, and syncs. It never cuts, and reads nothing. It
    /// takes no memory but the device's, and time by the length of the text, whatever the device
    /// holds. The record is a right one: opening would truncate any other, and all records after
    /// it. Refused with `Failed` if the device failed since it was opened, or with
    /// `OutOfMemory`: then nothing has changed. After `Device`, some prefix of the text may be
    /// at the end.
    #[inline(always)]
    pub fn put(&mut self, rec: &Rec) -> Result<(), WriteFault>
        requires { IsRightRecord rec.now }
        // claim: A record is put whole and stable, in version 2 whatever the device holds, or a
        //   fault says what is left
        ensures ok { OnOk result (IsPut D.disk (record_text rec.now) self.old self.new) }
        ensures err { IfErr result (λ fault.
            IsNotPut D.disk (record_text rec.now) self.old (fault_of fault) self.new) }
    {
        if self.failed {
            return Err(WriteFault::Failed);
        }
        match write_record(&mut self.device, rec) {
            Ok(()) => Ok(()),
            Err(fault) => Err(self.refused(fault)),
        }
    }

    /// The same, of the text of a record, where the caller has it.
    #[inline(always)]
    pub fn put_text(&mut self, text: &[u8]) -> Result<(), WriteFault>
        requires { (rec : Rec) × IsRightRecord rec × (text.now ≡ record_text rec) }
        ensures ok { OnOk result (IsPut D.disk text.now self.old self.new) }
        ensures err { IfErr result (λ fault.
            IsNotPut D.disk text.now self.old (fault_of fault) self.new) }
    {
        if self.failed {
            return Err(WriteFault::Failed);
        }
        match write(&mut self.device, text) {
            Ok(()) => Ok(()),
            Err(fault) => Err(self.refused(fault)),
        }
    }

    /// Why a record is refused if its write is: the device failed, which is noted, or memory ran out.
    #[inline(always)]
    fn refused(&mut self, fault: Fault) -> WriteFault
        requires { (fault ≡ faults.OutOfMemory) ⊎ (fault ≡ faults.Device) }
        ensures device { self.new.device ≡ self.old.device }
        ensures fault { fault_of result ≡ fault }
        ensures failed { fault ≡ faults.Device → self.new.failed ≡ true }
        ensures working { fault ≡ faults.OutOfMemory → self.new.failed ≡ self.old.failed }
    {
        if !matches!(fault, Fault::Device) {
            return WriteFault::OutOfMemory;
        }
        self.failed = true;
        WriteFault::Device
    }

    /// Whether the device failed since it was opened: then each `put` is refused with `Failed`.
    pub fn has_failed(&self) -> bool
        ensures { result ≡ self.now.failed }
    {
        self.failed
    }

    /// How many bytes the device holds.
    pub fn stored(&self) -> u64
        ensures { result ≡ length (D.disk self.now.device).contents }
    {
        self.device.len()
    }

    /// The device, where it is.
    pub fn device(&self) -> &D
        ensures { result.now ≡ self.now.device }
    {
        &self.device
    }

    /// The device, as it is.
    pub fn close(self) -> D
        ensures { result ≡ self.device }
    {
        self.device
    }
}

impl<D: CutDevice> Store<D> {
    ghost use Rattle.rp_store.specs.Tearing.{IsTorn, IsNotTorn};

    /// What a stop of the node inside `put` leaves: the record's text is appended and not synced,
    /// and the device stops with the first `kept` bytes of it, or all if there are no more.
    pub fn tear(self, rec: &Rec, kept: u64) -> Result<D, NotTorn<D>>
        requires { IsRightRecord rec.now }
        // claim: A stop within a put leaves the prefix of the record that the device kept
        ensures ok { IfOk result (λ device. IsTorn D.disk (record_text rec.now) kept self device) }
        ensures err { IfErr result (λ fault. IsNotTorn D.disk (record_text rec.now) self fault) }
    {
        if self.failed {
            return Err(NotTorn::Refused(Fault::Failed, self));
        }
        let mut store = self;
        match store.device.append(text_of_record(rec).as_slice()) {
            Ok(()) => {
                store.device.stop(kept);
                Ok(store.device)
            }
            Err(Fault::Device) => Err(NotTorn::Failed(store.device)),
            Err(fault) => Err(NotTorn::Refused(fault, store)),
        }
    }
}
