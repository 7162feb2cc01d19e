//! How long a node has waited.

ghost use Rattle.std.specs.Prelude.{◌≡◌};
ghost use Rattle.rp_patience.specs.Patience.{fresh_wait, waits, after_quiet, has_waited, is_over, tried, led_on, rests, has_rested, asks_soon, asked_at};

use rp_base::{NodeId, Position};

/// After how many quiet turns node 1 leads again; node k waits k times as many.
const QUIET_TURNS: u64 = 32;

/// After how many quiet turns a node that led last leads again.
const LEADER_TURNS: u64 = 4;

/// At most how often a wait is doubled.
const MOST_DOUBLINGS: u32 = 6;

/// How many times as long an idle node waits that has asked, and got less than it asked for.
const LATER_RESTS: u64 = 64;

/// For how many positions a node asks at once.
const MOST_ASKED: u64 = 64;

/// How long a node has waited for something new to be applied, and how often it has led since then.
/// The waits differ, so that one node leads while the others wait. A node that led in vain waits as
/// long again, and from its third try on twice as long as before, up to 64 times as long. Once
/// something new is applied, the wait and the tries start again from 0. It has the layout that a C
/// caller reads, and is all zero at first.
#[repr(C)]
#[derive(Clone, Copy)]
pub struct Patience {
    /// How many actions were applied when the wait began.
    pub applied: u32,
    /// How often the node has led, or asked, at the end of a wait since then.
    pub tries: u32,
    /// How many quiet turns there were since the last try.
    pub quiet: u64,
    /// The last position at which it led on since then, or 0.
    pub led: u32,
    /// One more than how many actions it had applied when it last asked while it was idle, or 0.
    pub asked: u32,
    /// How many quiet turns it was idle since it last asked so.
    pub idle: u64,
}

impl Patience {
    /// Nothing is applied yet, and no turn was quiet.
    pub fn new() -> Patience
        ensures { result ≡ fresh_wait 0 }
    {
        Patience {
            applied: 0,
            tries: 0,
            quiet: 0,
            led: 0,
            asked: 0,
            idle: 0,
        }
    }

    /// Counts quiet turns of the node of this number, which has applied n actions and has something
    /// to decide. Returns whether the node is to lead now; if so, its wait starts again.
    pub fn is_over(&mut self, node: NodeId, applied: u32, turns: u64) -> bool
        ensures answer { result ≡ is_over node (waits turns applied self.old) }
        ensures after { self.new ≡ after_quiet turns node applied self.old }
    {
        self.wait(applied, turns);
        let over = self.is_to_lead(node);
        if over {
            self.try_again();
        }
        over
    }

    /// Counts quiet turns of a node that has applied n actions.
    pub(crate) fn wait(&mut self, applied: u32, turns: u64)
        ensures { self.new ≡ waits turns applied self.old }
    {
        if applied != self.applied {
            *self = Patience {
                applied,
                tries: 0,
                quiet: 0,
                led: 0,
                ..*self
            };
        }
        self.quiet = self.quiet.saturating_add(turns);
    }

    /// Whether the node has waited as long as it waits, by whether it led last.
    pub(crate) fn has_waited(&self, node: NodeId, led_last: bool) -> bool
        ensures { result ≡ has_waited node led_last self.now }
    {
        let doublings = self.tries.saturating_sub(1).min(MOST_DOUBLINGS);
        if led_last {
            LEADER_TURNS << doublings <= self.quiet
        } else {
            (QUIET_TURNS * u64::from(node.get())) << doublings <= self.quiet
        }
    }

    /// Whether the node, which has something to decide, is to lead now.
    fn is_to_lead(&self, node: NodeId) -> bool
        ensures { result ≡ is_over node self.now }
    {
        (node.get() == 1 && self.tries == 0) || self.has_waited(node, false)
    }

    /// Counts a try: the wait starts again.
    pub(crate) fn try_again(&mut self)
        ensures { self.new ≡ tried self.old }
    {
        self.quiet = 0;
        self.tries = self.tries.saturating_add(1);
    }

    /// Remembers where the node leads on: the wait starts again.
    pub(crate) fn lead_on(&mut self, position: Position)
        ensures { self.new ≡ led_on position self.old }
    {
        self.quiet = 0;
        self.led = u32::from(position.get());
    }

    /// Counts quiet turns of a node that is idle.
    pub(crate) fn rest(&mut self, turns: u64)
        ensures { self.new ≡ rests turns self.old }
    {
        self.idle = self.idle.saturating_add(turns);
    }

    /// Whether an idle node has waited as long as it waits before it asks.
    pub(crate) fn has_rested(&self, node: NodeId, soon: bool) -> bool
        ensures { result ≡ has_rested node soon self.now }
    {
        let times = if soon { 1 } else { LATER_RESTS };
        QUIET_TURNS * u64::from(node.get()) * times <= self.idle
    }

    /// Whether an idle node asks soon: it has not asked yet, or has applied as many actions since as
    /// it asked for, or was brought a call that came early and has applied something since it asked.
    pub(crate) fn asks_soon(&self, applied: u32, early: bool) -> bool
        ensures { result ≡ asks_soon applied early self.now }
    {
        let asked = u64::from(self.asked);
        asked == 0
            || asked + (MOST_ASKED - 1) <= u64::from(applied)
            || (early && asked != u64::from(applied) + 1)
    }

    /// Remembers how many actions the node had applied when it asked while it was idle.
    pub(crate) fn ask_at(&mut self, applied: u32)
        ensures { self.new ≡ asked_at applied self.old }
    {
        self.idle = 0;
        self.asked = applied.saturating_add(1);
    }
}
