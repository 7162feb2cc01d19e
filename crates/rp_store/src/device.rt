//! What a store asks of the device under it.

ghost use Rattle.std.specs.Prelude.{◌≡◌, ◌⊎◌, ℕ, ◌≤◌, length, IfOk, IfErr, OnOk, IsErrOf};
ghost use Rattle.rp_codec.specs.rp_base.specs.declared.fault.Fault.TheVariants as faults;
ghost use Rattle.rp_store.specs.Disk.{Disk, appended, synced, read_once, cut_to, stopped, ReadFailed, AppendFailed, SyncFailed, CutFailed};

use rp_base::Fault;
use std::alloc::Global;

/// Bytes that stay where they were put. What was synced stays whatever happens. Of what was
/// appended since, a stop of the node leaves some prefix.
///
/// A call fails with `Fault::Device`, which raises the failure count, or is refused when out of
/// memory with `Fault::OutOfMemory`, and then nothing has changed. There is no other fault. A call
/// that succeeds is counted by its kind.
pub trait Device: Drop {
    /// What it holds.
    ghost disk: { Self → Disk };

    /// Puts the bytes at the end. They are stable once `sync` has succeeded. If it fails, some
    /// prefix of them may be there.
    fn append(&mut self, bytes: &[u8]) -> Result<(), Fault>
        ensures ok { OnOk result (disk self.new ≡ appended bytes.now (disk self.old)) }
        ensures refused { IsErrOf result Fault.OutOfMemory → disk self.new ≡ disk self.old }
        ensures failed { IsErrOf result Fault.Device
            → AppendFailed bytes.now (disk self.old) (disk self.new) }
        ensures faults { IfErr result (λ fault.
            (fault ≡ faults.OutOfMemory) ⊎ (fault ≡ faults.Device)) };

    /// Makes all that it holds stable. It takes no memory. If it fails, some of what was not
    /// stable may be.
    fn sync(&mut self) -> Result<(), Fault>
        ensures ok { OnOk result (disk self.new ≡ synced (disk self.old)) }
        ensures failed { IsErrOf result Fault.Device → SyncFailed (disk self.old) (disk self.new) }
        ensures faults { IfErr result (λ fault. fault ≡ faults.Device) };

    /// All of its bytes.
    fn read(&mut self, alloc: Global) -> Result<Vec<u8>, Fault>
        ensures contents { IfOk result (λ bytes. bytes.items ≡ (disk self.old).contents) }
        ensures ok { OnOk result (disk self.new ≡ read_once (disk self.old)) }
        ensures refused { IsErrOf result Fault.OutOfMemory → disk self.new ≡ disk self.old }
        ensures failed { IsErrOf result Fault.Device → ReadFailed (disk self.old) (disk self.new) }
        ensures faults { IfErr result (λ fault.
            (fault ≡ faults.OutOfMemory) ⊎ (fault ≡ faults.Device)) };

    /// How many bytes it holds.
    fn len(&self) -> u64
        ensures { result ≡ length (disk self.now).contents };

    /// Takes bytes off the end, so that `len` are left. If it fails, it may have taken some of
    /// them off.
    fn cut(&mut self, len: u64) -> Result<(), Fault>
        requires { len ≤ length (disk self.old).contents }
        ensures ok { OnOk result (disk self.new ≡ cut_to len (disk self.old)) }
        ensures refused { IsErrOf result Fault.OutOfMemory → disk self.new ≡ disk self.old }
        ensures failed { IsErrOf result Fault.Device
            → CutFailed len (disk self.old) (disk self.new) }
        ensures faults { IfErr result (λ fault.
            (fault ≡ faults.OutOfMemory) ⊎ (fault ≡ faults.Device)) };
}

/// A device that can be stopped, as a crash of its node does.
pub trait CutDevice: Device {
    /// What was synced stays, followed by the first `kept` of the bytes appended since, or all of
    /// them if there are no more.
    fn stop(&mut self, kept: u64)
        ensures { Self.disk self.new ≡ stopped kept (Self.disk self.old) };
}

/// A device none of whose calls fails, as memory is: so no step over it is answered with
/// `Fault::Device`.
pub trait InfallibleDevice: Device {
    /// No failure is ever counted.
    ghost never_fails: { (d : Self) → (Self.disk d).failures ≡ 0 };
}
