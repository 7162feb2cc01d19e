//! Which messages of a run are settled.

ghost use Rattle.std.specs.Prelude.{◌≡◌, ℕ, ◌+◌, ◌^◌, ◌<◌, ◌≤◌, ◌==◌, ◌||◌, true, false, IfSome, IfNone, OnOk, OnErr};
ghost use Rattle.rp_run.specs.NextNumbers.{is_passed, next_of, LeadsOn};

use std::alloc::{AllocError, Global};

/// The messages that were delivered, cut at or lost, by their numbers from 1.
#[derive(Drop)]
pub struct Settled {
    /// This number is not settled, and all from 1 to the one before it are.
    least: u64,
    /// For each number from 0 on: the number itself, or, if it was settled above `least`, a later
    /// one before which all are settled.
    next: Vec<u64>,
    ghost from_one: { 1 ≤ least },
    ghost unsettled: { is_passed next.items least ≡ false },
    ghost leads_on: { LeadsOn least next.items },
}

impl Settled {
    ghost use Rattle.rp_run.specs.Settled.{is_settled, least_of};
    ghost use Rattle.rp_run.specs.Output.{is_among, from_to, message_list};

    /// No message is settled.
    pub fn new(alloc: Global) -> Self
        ensures { (m : ℕ) → is_settled result m ≡ false }
    {
        Settled {
            least: 1,
            next: Vec::new(alloc),
        }
    }

    /// The least number from 1 that is not settled.
    pub fn least(&self) -> u64
        ensures unsettled { is_settled self.now result ≡ false }
        ensures least { (m : ℕ) → 1 ≤ m → m < result → is_settled self.now m ≡ true }
        ensures from_one { 1 ≤ result }
    {
        self.least
    }

    /// The least number from this one on that is not settled, in amortized logarithmic time.
    pub fn next_unsettled(&mut self, from: u64) -> u64
        requires { 1 ≤ from }
        ensures unsettled { is_settled self.old result ≡ false }
        ensures from { from ≤ result }
        ensures least { (m : ℕ) → from ≤ m → m < result → is_settled self.old m ≡ true }
        ensures same { (m : ℕ) → is_settled self.new m ≡ is_settled self.old m }
    {
        first_unpassed(&mut self.next, from.max(self.least))
    }

    /// Settles a message, in amortized logarithmic time. One above `least` takes 8 bytes for each
    /// number up to it that has none yet.
    #[inline(always)]
    pub fn settle(&mut self, message: u64) -> Result<(), AllocError>
        requires from_one { 1 ≤ message }
        requires not_last { message + 1 < 2 ^ 64 }
        ensures ok { OnOk result ((m : ℕ)
            → is_settled self.new m ≡ (m == message || is_settled self.old m)) }
        ensures err { OnErr result ((m : ℕ) → is_settled self.new m ≡ is_settled self.old m) }
    {
        if message > self.least {
            pass_over(&mut self.next, message)?;
        } else if message == self.least {
            self.pass();
        }
        Ok(())
    }

    /// Settles the messages from the first to the last: only those that are not settled yet take
    /// time. Out of memory, some of them are settled, and every other message is as it was.
    pub fn settle_all(&mut self, first: u64, last: u64) -> Result<(), AllocError>
        requires from_one { 1 ≤ first }
        requires not_last { last + 1 < 2 ^ 64 }
        ensures ok { OnOk result ((m : ℕ) → is_settled self.new m
            ≡ (is_among (from_to first last) m || is_settled self.old m)) }
        ensures kept { OnErr result ((m : ℕ)
            → is_settled self.old m ≡ true → is_settled self.new m ≡ true) }
        ensures others { OnErr result ((m : ℕ) → is_among (from_to first last) m ≡ false
            → is_settled self.new m ≡ is_settled self.old m) }
    {
        let mut message = self.next_unsettled(first);
        while message <= last {
            self.settle(message)?;
            message = self.next_unsettled(message + 1);
        }
        Ok(())
    }

    /// Settles the message, if there is one.
    #[inline(always)]
    pub fn settle_any(&mut self, message: Option<u64>) -> Result<(), AllocError>
        requires { IfSome message (λ m. (1 ≤ m) × (m < 2 ^ 63)) }
        ensures ok { OnOk result ((m : ℕ)
            → is_settled self.new m ≡ (is_among (message_list message) m || is_settled self.old m)) }
        ensures err { OnErr result ((m : ℕ) → is_settled self.new m ≡ is_settled self.old m) }
    {
        match message {
            Some(message) => self.settle(message),
            None => Ok(()),
        }
    }

    /// Settles the least number, and moves `least` past those that are already settled after it.
    #[inline(always)]
    fn pass(&mut self)
        requires { least_of self.old + 1 < 2 ^ 64 }
        ensures { (m : ℕ) → is_settled self.new m
            ≡ (m == least_of self.old || is_settled self.old m) }
    {
        let least = self.least + 1;
        self.least = if least < self.next.len() as u64 {
            first_unpassed(&mut self.next, least)
        } else {
            least
        };
    }
}

/// The first number from this one on that is not passed. What is stored on the way to it is moved
/// on, so that the way is shorter the next time.
#[inline(never)]
fn first_unpassed(next: &mut Vec<u64>, from: u64) -> u64
    requires { LeadsOn from next.old.items }
    ensures from { from ≤ result }
    ensures unpassed { is_passed next.old.items result ≡ false }
    ensures passed { (m : ℕ) → from ≤ m → m < result → is_passed next.old.items m ≡ true }
    ensures same { (m : ℕ) → is_passed next.new.items m ≡ is_passed next.old.items m }
    ensures leads_on { (least : ℕ) → least ≤ from → LeadsOn least next.old.items
        → LeadsOn least next.new.items }
{
    let mut number = from;
    while let Some(after) = later(next, number) {
        let beyond = later(next, after).unwrap_or(after);
        next[number as usize] = beyond;
        number = beyond;
    }
    number
}

/// The later number that is stored for a number, if one is.
fn later(next: &[u64], number: u64) -> Option<u64>
    ensures some { IfSome result (λ after. (after ≡ next_of next.now number) × (number < after)) }
    ensures none { IfNone result (is_passed next.now number ≡ false) }
{
    let after = *next.get(number as usize)?;
    if after > number { Some(after) } else { None }
}

/// Passes over a number. `AllocError`: then nothing is passed that was not before.
#[inline(never)]
fn pass_over(next: &mut Vec<u64>, number: u64) -> Result<(), AllocError>
    requires { number + 1 < 2 ^ 64 }
    ensures ok { OnOk result ((m : ℕ)
        → is_passed next.new.items m ≡ (m == number || is_passed next.old.items m)) }
    ensures err { OnErr result ((m : ℕ)
        → is_passed next.new.items m ≡ is_passed next.old.items m) }
    ensures leads_on { (least : ℕ) → LeadsOn least next.old.items → LeadsOn least next.new.items }
{
    for unpassed in next.len() as u64..number + 1 {
        next.push(unpassed)?;
    }
    if later(next, number).is_none() {
        next[number as usize] = number + 1;
    }
    Ok(())
}
