//! A device of which one call fails on demand.

ghost use Rattle.std.specs.Prelude.{◌≡◌, suc};

use crate::count::Count;
use crate::device::{CutDevice, Device};
use rp_base::Fault;
use std::alloc::Global;
use std::marker::Model;

/// A kind of call that a device may fail.
#[derive(Clone, Copy, Debug, PartialEq, Eq)]
pub enum DeviceCall {
    Append,
    Sync,
    Read,
    Cut,
}

/// A device that passes every call to the device inside, but fails one of them. To a contract it is
/// the device inside, with its own failure counted besides.
#[derive(Drop)]
pub struct FailDevice<D: Device> {
    inner: D,
    kind: DeviceCall,
    /// How many calls of the kind there are up to the one that fails, 0 where none does.
    left: u64,
    kept: usize,
    failures: Count,
}

impl<D: Device> Model for FailDevice<D> {
    ghost use Rattle.std.specs.Prelude.{◌+◌};
    ghost use Rattle.rp_store.specs.Disk.{Disk};

    ghost Value = { Disk };

    ghost view = { λ d. record (D.disk d.inner) {
      failures = (D.disk d.inner).failures + d.failures;
    } };
}

impl<D: Device> FailDevice<D> {
    /// The call of this kind and number fails, from 1; 0 names none. A failing append leaves the
    /// first `kept` bytes of what it was given, or all if there are no more; the others do nothing.
    /// A call that the device inside refuses or fails is not counted.
    pub fn new(inner: D, kind: DeviceCall, at: u64, kept: usize) -> Self
        // claim: A device of which one call fails on demand is the device inside, with that failure
        //   counted too; its calls keep the clauses of `Device` and `CutDevice`, so all that holds
        //   over any device holds over it
        ensures { result ≡ D.disk inner }
    {
        FailDevice {
            inner,
            kind,
            left: at,
            kept,
            failures: Count::new(),
        }
    }

    /// Whether the next call of this kind is the one that fails.
    fn is_due(&self, kind: DeviceCall) -> bool {
        self.kind == kind && self.left == 1
    }

    /// A call of this kind passed.
    fn passes(&mut self, kind: DeviceCall)
        ensures { self.new ≡ self.old }
    {
        if self.kind == kind && self.left > 1 {
            self.left -= 1;
        }
    }

    /// The call fails, and no other will.
    fn fails(&mut self) -> Fault
        ensures failures { self.new ≡ record self.old { failures = suc self.old.failures } }
        ensures fault { result ≡ Fault.Device }
    {
        self.left = 0;
        self.failures.raise();
        Fault::Device
    }
}

impl<D: Device> Device for FailDevice<D> {
    ghost disk = { λ d. d };

    fn append(&mut self, bytes: &[u8]) -> Result<(), Fault> {
        if self.is_due(DeviceCall::Append) {
            self.inner.append(&bytes[..self.kept.min(bytes.len())])?;
            return Err(self.fails());
        }
        self.inner.append(bytes)?;
        self.passes(DeviceCall::Append);
        Ok(())
    }

    fn sync(&mut self) -> Result<(), Fault> {
        if self.is_due(DeviceCall::Sync) {
            return Err(self.fails());
        }
        self.inner.sync()?;
        self.passes(DeviceCall::Sync);
        Ok(())
    }

    fn read(&mut self, alloc: Global) -> Result<Vec<u8>, Fault> {
        if self.is_due(DeviceCall::Read) {
            return Err(self.fails());
        }
        let bytes = self.inner.read(alloc)?;
        self.passes(DeviceCall::Read);
        Ok(bytes)
    }

    fn len(&self) -> u64 {
        self.inner.len()
    }

    fn cut(&mut self, len: u64) -> Result<(), Fault> {
        if self.is_due(DeviceCall::Cut) {
            return Err(self.fails());
        }
        self.inner.cut(len)?;
        self.passes(DeviceCall::Cut);
        Ok(())
    }
}

impl<D: CutDevice> CutDevice for FailDevice<D> {
    fn stop(&mut self, kept: u64) {
        self.inner.stop(kept);
    }
}
