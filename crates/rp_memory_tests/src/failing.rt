ghost use Rattle.std.specs.Prelude.{◌≡◌, suc};
ghost use Rattle.rp_world.specs.rp_base.specs.declared.fault.Fault.TheVariants as faults;

use rp_base::Fault;
use rp_store::*;
use std::alloc::Global;

/// A call of a device.
#[derive(Clone, Copy, Debug, PartialEq, Eq)]
pub(crate) enum Call {
    Read,
    Append,
    Sync,
}

/// A device in memory that fails at most once. An append that fails leaves half of its bytes.
#[derive(Drop)]
pub(crate) struct FailingDevice {
    inner: MemDevice,
    /// The call that fails, and how many bytes the device holds then. `None` once it has failed.
    fails: Option<(Call, u64)>,
    failures: Count,
}

impl FailingDevice {
    /// An empty device, which fails at the first such call.
    pub(crate) fn new(alloc: Global, fails: Option<(Call, u64)>) -> Self {
        FailingDevice {
            inner: MemDevice::new(alloc),
            fails,
            failures: Count::new(),
        }
    }

    /// Whether this call fails.
    fn fails_at(&self, call: Call) -> bool {
        self.fails == Some((call, self.inner.len()))
    }

    /// The failure.
    fn fail(&mut self) -> Fault
        ensures fault { result ≡ faults.Device }
        ensures inner { self.new.inner ≡ self.old.inner }
        ensures raised { self.new.failures ≡ suc self.old.failures }
    {
        self.fails = None;
        self.failures.raise();
        Fault::Device
    }
}

impl Device for FailingDevice {
    ghost use Rattle.rp_world.specs.rp_store.specs.Disk.{disk_of};

    ghost disk = { λ d. record (disk_of d.inner) { failures = d.failures } };

    fn append(&mut self, bytes: &[u8]) -> Result<(), Fault> {
        if self.fails_at(Call::Append) {
            let (half, _) = bytes.split_at(bytes.len() / 2);
            self.inner.append(half)?;
            return Err(self.fail());
        }
        self.inner.append(bytes)
    }

    fn sync(&mut self) -> Result<(), Fault> {
        if self.fails_at(Call::Sync) {
            return Err(self.fail());
        }
        self.inner.sync()
    }

    fn read(&mut self, alloc: Global) -> Result<Vec<u8>, Fault> {
        if self.fails_at(Call::Read) {
            return Err(self.fail());
        }
        self.inner.read(alloc)
    }

    fn len(&self) -> u64 {
        self.inner.len()
    }

    fn cut(&mut self, len: u64) -> Result<(), Fault> {
        self.inner.cut(len)
    }
}
