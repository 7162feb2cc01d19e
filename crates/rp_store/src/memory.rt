//! A device in memory.

ghost use Rattle.std.specs.Prelude.{◌≡◌, ◌≤◌, [], length, take, All, IfOk, OnOk, OnErr};
ghost use Rattle.rp_store.specs.Disk.{disk_of, empty_disk};

use crate::count::Count;
use crate::device::{CutDevice, Device, InfallibleDevice};
use rp_base::Fault;
use std::alloc::{AllocError, Global};
use std::marker::Model;

/// How many bytes of room are left after an append that had to make room.
const ROOM: usize = 1024;

/// A device in memory. It never fails. After the bytes that it holds there is room, so that an
/// append mostly moves no more than the bytes appended.
pub struct MemDevice {
    bytes: Vec<u8>,
    used: usize,
    synced: usize,
    appends: Count,
    syncs: Count,
    reads: Count,
    cuts: Count,
}

// Not derived, so that to drop it is one step of a proof and not one for each of its parts.
impl Drop for MemDevice {
    fn drop(self) {
        let MemDevice {
            bytes: _,
            used: _,
            synced: _,
            appends: _,
            syncs: _,
            reads: _,
            cuts: _,
        } = self;
    }
}

impl Model for MemDevice {
    ghost use Rattle.std.specs.Prelude.{◌≤◌, length, take};
    ghost use Rattle.rp_store.specs.Disk.{Memory};

    ghost Value = { Memory };

    ghost view = { λ m. record {
      contents = take m.used m.bytes.items;
      stable = m.synced;
      appends = m.appends;
      syncs = m.syncs;
      reads = m.reads;
      cuts = m.cuts;
    } };

    ghost invariant = { λ m. (m.synced ≤ m.used) × (m.used ≤ length m.bytes.items) };
}

impl MemDevice {
    /// A device that holds nothing. It takes no memory.
    pub fn new(alloc: Global) -> Self
        ensures { disk_of result ≡ empty_disk }
    {
        MemDevice {
            bytes: Vec::new(alloc),
            used: 0,
            synced: 0,
            appends: Count::new(),
            syncs: Count::new(),
            reads: Count::new(),
            cuts: Count::new(),
        }
    }

    /// Devices that hold nothing, n of them.
    pub fn several(alloc: Global, count: u8) -> Result<Vec<Self>, AllocError>
        ensures count { IfOk result (λ devices. length devices.items ≡ count) }
        // claim (empty): New devices in memory hold nothing
        ensures empty { IfOk result
            (λ devices. All (λ device. disk_of device ≡ empty_disk) devices.items) }
        ensures contents { IfOk result (λ devices. All (λ d. d.contents ≡ []) devices.items) }
    {
        let mut devices = Vec::new(alloc);
        for _ in 0..count {
            devices.push(MemDevice::new(alloc))?;
        }
        Ok(devices)
    }

    /// All of its bytes, where they are.
    pub fn contents(&self) -> &[u8]
        ensures { result.now ≡ self.now.contents }
    {
        &self.bytes[..self.used]
    }
}

/// Makes room for `end` bytes in all, and for `ROOM` more. If it is refused when out of memory, the
/// bytes stay as they are.
#[cold]
#[inline(never)]
fn make_room(bytes: &mut Vec<u8>, end: usize) -> Result<(), AllocError>
    requires { length bytes.old.items ≤ end }
    ensures kept { take (length bytes.old.items) bytes.new.items ≡ bytes.old.items }
    ensures room { OnOk result (end ≤ length bytes.new.items) }
    ensures refused { OnErr result (bytes.new.items ≡ bytes.old.items) }
{
    bytes.resize(end.saturating_add(ROOM), 0)
}

impl Device for MemDevice {
    ghost use Rattle.rp_store.specs.Disk.{disk_of};

    ghost disk = { disk_of };

    #[inline(always)]
    fn append(&mut self, bytes: &[u8]) -> Result<(), Fault> {
        let end = self.used + bytes.len();
        if end > self.bytes.len() {
            make_room(&mut self.bytes, end)?;
        }
        self.bytes[self.used..end].copy_from_slice(bytes);
        self.used = end;
        self.appends.raise();
        Ok(())
    }

    #[inline(always)]
    fn sync(&mut self) -> Result<(), Fault> {
        self.synced = self.used;
        self.syncs.raise();
        Ok(())
    }

    fn read(&mut self, alloc: Global) -> Result<Vec<u8>, Fault> {
        let bytes = self.bytes[..self.used].to_vec(alloc)?;
        self.reads.raise();
        Ok(bytes)
    }

    fn len(&self) -> u64 {
        self.used as u64
    }

    fn cut(&mut self, len: u64) -> Result<(), Fault> {
        let len = len as usize;
        self.used = len;
        self.synced = self.synced.min(len);
        self.cuts.raise();
        Ok(())
    }
}

impl CutDevice for MemDevice {
    fn stop(&mut self, kept: u64) {
        let unsynced = self.used - self.synced;
        if kept < unsynced as u64 {
            self.used = self.synced + kept as usize;
        }
    }
}

impl InfallibleDevice for MemDevice {
    ghost use Rattle.std.specs.Prelude.{refl};

    ghost never_fails = { λ d. refl };
}
