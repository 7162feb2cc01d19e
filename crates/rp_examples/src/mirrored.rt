//! A device: two copies of the same bytes, on two devices.

ghost use Rattle.std.specs.Prelude.{◌≡◌, suc, is_ok, IfErr, if◌then◌else◌};
ghost use Rattle.rp_store.specs.Disk.{empty_disk};
ghost use Rattle.rp_examples.specs.Mirrored.{HoldTheSame, copies_left, is_left};

use rp_base::Fault;
use rp_store::{Count, CutDevice, Device};
use std::alloc::Global;
use std::marker::Model;

/// A device that keeps each byte on two devices, and goes on with one of them if a call of the
/// other fails; a read that fails is made of the other one. So a call fails only if it failed of
/// each copy that is left. To a contract it is its main copy, with counts of its own.
#[derive(Drop)]
pub struct MirroredDevice<D: Device> {
    copies: Copies<D>,
    appends: Count,
    syncs: Count,
    reads: Count,
    cuts: Count,
    failures: Count,
}

/// The copies that are left.
#[derive(Drop)]
struct Copies<D: Device> {
    /// The copy that is read first.
    main: D,
    /// The other one, until a call of it fails.
    spare: Option<D>,
}

impl<D: Device> Model for MirroredDevice<D> {
    ghost use Rattle.std.specs.Prelude.{IfSome};
    ghost use Rattle.rp_store.specs.Disk.{Disk};
    ghost use Rattle.rp_examples.specs.Mirrored.{HoldTheSame};

    ghost Value = { Disk };

    ghost view = { λ d. record {
      contents = (D.disk d.copies.main).contents;
      stable = (D.disk d.copies.main).stable;
      failures = d.failures;
      appends = d.appends;
      syncs = d.syncs;
      reads = d.reads;
      cuts = d.cuts;
    } };

    ghost invariant = { λ d. IfSome d.copies.spare (λ spare.
        HoldTheSame (D.disk d.copies.main) (D.disk spare)) };
}

impl<D: Device> MirroredDevice<D> {
    /// A device over two that hold nothing.
    pub fn new(main: D, spare: D) -> Self
        requires main { D.disk main ≡ empty_disk }
        requires spare { D.disk spare ≡ empty_disk }
        // claim: A device over two copies keeps the clauses of `Device` and `CutDevice`, so all that
        //   holds over any device holds over it
        ensures { result ≡ empty_disk }
    {
        MirroredDevice {
            copies: Copies {
                main,
                spare: Some(spare),
            },
            appends: Count::new(),
            syncs: Count::new(),
            reads: Count::new(),
            cuts: Count::new(),
            failures: Count::new(),
        }
    }
}

impl<D: Device> Device for MirroredDevice<D> {
    ghost disk = { λ d. d };

    fn append(&mut self, bytes: &[u8]) -> Result<(), Fault> {
        let done = self.copies.main.append(bytes);
        if matches!(done, Err(Fault::OutOfMemory)) {
            return done;
        }
        let followed = match &mut self.copies.spare {
            Some(spare) => spare.append(bytes).is_ok(),
            None => false,
        };
        self.copies.settle(&mut self.failures, done, followed)?;
        self.appends.raise();
        Ok(())
    }

    fn sync(&mut self) -> Result<(), Fault> {
        let done = self.copies.main.sync();
        let followed = match &mut self.copies.spare {
            Some(spare) => spare.sync().is_ok(),
            None => false,
        };
        self.copies.settle(&mut self.failures, done, followed)?;
        self.syncs.raise();
        Ok(())
    }

    fn read(&mut self, alloc: Global) -> Result<Vec<u8>, Fault> {
        let mut read = self.copies.main.read(alloc);
        if matches!(read, Err(Fault::Device)) {
            if let Some(spare) = &mut self.copies.spare {
                read = spare.read(alloc);
            }
        }
        match &read {
            Ok(_) => self.reads.raise(),
            Err(Fault::Device) => self.failures.raise(),
            Err(_) => {}
        }
        read
    }

    fn len(&self) -> u64 {
        self.copies.main.len()
    }

    fn cut(&mut self, len: u64) -> Result<(), Fault> {
        let done = self.copies.main.cut(len);
        if matches!(done, Err(Fault::OutOfMemory)) {
            return done;
        }
        let followed = match &mut self.copies.spare {
            Some(spare) => spare.cut(len).is_ok(),
            None => false,
        };
        self.copies.settle(&mut self.failures, done, followed)?;
        self.cuts.raise();
        Ok(())
    }
}

impl<D: CutDevice> CutDevice for MirroredDevice<D> {
    fn stop(&mut self, kept: u64) {
        self.copies.main.stop(kept);
        if let Some(spare) = &mut self.copies.spare {
            spare.stop(kept);
        }
    }
}

impl<D: Device> Copies<D> {
    /// Leaves the copies of which a call succeeded, the spare one as the main one if that failed
    /// alone. If there is none, the call failed: that is counted, and the main copy's fault is
    /// returned.
    fn settle(
        &mut self,
        failures: &mut Count,
        done: Result<(), Fault>,
        followed: bool,
    ) -> Result<(), Fault>
        // claim (copies, left): After a call of two copies those are left of which it succeeded,
        //   and whether there is one is returned
        ensures copies { (self.new.main, self.new.spare)
            ≡ copies_left self.old.main self.old.spare (is_ok done) followed }
        ensures left { is_ok result ≡ is_left self.old.spare (is_ok done) followed }
        ensures fault { IfErr result (λ fault. done ≡ Err fault) }
        ensures counted { failures.new ≡ (if is_ok result then failures.old else suc failures.old) }
    {
        if !followed {
            self.spare = None;
        }
        if done.is_ok() {
            return done;
        }
        match self.spare.take() {
            Some(copy) => {
                self.main = copy;
                Ok(())
            }
            None => {
                failures.raise();
                done
            }
        }
    }
}
