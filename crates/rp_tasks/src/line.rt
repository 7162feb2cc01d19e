//! A faulty link, which loses, duplicates and reorders packets.

ghost use Rattle.std.specs.Prelude.{◌≡◌, ◌≢◌, ◌⊎◌, ℕ, ◌+◌, ◌-◌, List, [], ◌∷◌, ◌++◌, length, take, Some, option_map, IfOk, OnOk, OnErr, IsOkUnless};
ghost use Rattle.rp_base.specs.Sets.{Has};
ghost use Rattle.rp_tasks.specs.Line.{Line, line_of, word_of, drawn, accepted, picked, copies_of, released, saturating_sum};

use rand_chacha::ChaCha20Rng;
use rand_chacha::rand_core::SeedableRng;
use rand_chacha::rand_core::utils::NextWord;
use rp_base::Fault;
use std::alloc::Global;
use std::marker::Model;
use std::snapshot::Snapshot;

/// How many packets a link holds at most.
const ROOM: usize = 16;

/// A packet is lost or duplicated by its word modulo this: two values lose it, two duplicate it.
const CASES: u32 = 16;

/// How many buffers a link keeps for second copies.
const MOST_SPARES: usize = 4;

/// A faulty link over the texts of packets. It holds at most 16. A random word of 32 bits decides
/// whether a packet that it takes is lost or duplicated, and another which packet it passes on. The
/// words come from a seed, so the same faults can be produced again. The next word is computed
/// before it is used, so memory for a second copy is asked for only if that word makes one.
#[derive(Drop)]
pub struct FaultLine {
    held: Vec<Vec<u8>>,
    /// The next word of the stream.
    next: u32,
    /// The generator after that word.
    words: ChaCha20Rng,
    /// The generator before that word, for contracts alone.
    before: Snapshot<ChaCha20Rng>,
    /// Buffers of packets that were lost, for second copies to come.
    spares: Vec<Vec<u8>>,
    /// How many copies were lost.
    lost: u64,
}

impl Model for FaultLine {
    ghost use Rattle.std.specs.Prelude.{◌≡◌, ◌≤◌, length, map, vec_capacity};
    ghost use Rattle.rand_chacha.specs.ChaCha.{next_word};
    ghost use Rattle.rp_tasks.specs.Line.{Line};

    ghost Value = { Line };

    ghost view = { λ l. record {
      held = map (λ packet. packet.items) l.held.items;
      words = l.before.value;
      lost = l.lost;
    } };

    ghost invariant = { λ l. (length l.held.items ≤ 16) × (16 ≤ vec_capacity l.held)
        × (next_word 10 l.before.value ≡ (l.next, l.words)) };
}

impl FaultLine {
    /// An empty link whose words are the stream of this seed. It makes its room of 16 packets here,
    /// or answers `OutOfMemory`.
    pub fn new(alloc: Global, seed: [u8; 32]) -> Result<Self, Fault>
        ensures opened { IfOk result (λ line. line ≡ line_of seed) }
        ensures only { IsOkUnless result Fault.OutOfMemory }
    {
        let mut words = ChaCha20Rng::from_seed(seed);
        let before = Snapshot::of(&words);
        let next = words.next_word();
        Ok(FaultLine {
            held: Vec::with_capacity(alloc, ROOM)?,
            next,
            words,
            before,
            spares: Vec::new(alloc),
            lost: 0,
        })
    }

    /// How many copies were lost since the link was made: a packet that its word loses counts once,
    /// and each copy for which there is no place counts once. The count stays at `u64::MAX`.
    pub fn lost(&self) -> u64
        ensures { result ≡ self.now.lost }
    {
        self.lost
    }

    /// Draws the next word of the stream.
    pub fn next_word(&mut self) -> u32
        ensures value { result ≡ word_of self.old }
        ensures after { self.new ≡ drawn self.old }
    {
        let word = self.next;
        self.before = Snapshot::of(&self.words);
        self.next = self.words.next_word();
        word
    }

    /// The next word of the stream, which is not drawn.
    fn peek(&self) -> u32
        ensures { result ≡ word_of self.now }
    {
        self.next
    }

    /// Takes a packet by a word. Of the word modulo 16, 0 and 1 lose the packet, 2 and 3 hold it
    /// twice, and the rest once; a copy that finds no place among 16 is lost. `OutOfMemory` leaves
    /// the link as it was.
    pub fn accept_by(&mut self, alloc: Global, word: u32, packet: &[u8]) -> Result<(), Fault>
        ensures ok { OnOk result (self.new ≡ accepted word packet.now self.old) }
        ensures err { OnErr result (self.new ≡ self.old) }
        ensures only { IsOkUnless result Fault.OutOfMemory }
    {
        let packet = Vec::from_slice(alloc, packet)?;
        self.hold(alloc, word, packet)
    }

    /// Takes a packet by the next word of the stream, as `accept_by` does. `OutOfMemory` comes
    /// before the word is drawn, and leaves the link as it was.
    pub fn accept(&mut self, alloc: Global, packet: &[u8]) -> Result<(), Fault>
        ensures ok { OnOk result
            (self.new ≡ accepted (word_of self.old) packet.now (drawn self.old)) }
        ensures err { OnErr result (self.new ≡ self.old) }
        ensures only { IsOkUnless result Fault.OutOfMemory }
    {
        let packet = Vec::from_slice(alloc, packet)?;
        self.take(alloc, packet)
    }

    /// Takes a packet by the next word of the stream, as `accept` does, and does not copy it unless
    /// it is held twice: only then it takes memory. At `OutOfMemory` the packet is gone.
    #[inline(always)]
    pub fn take(&mut self, alloc: Global, packet: Vec<u8>) -> Result<(), Fault>
        ensures ok { OnOk result
            (self.new ≡ accepted (word_of self.old) packet.items (drawn self.old)) }
        ensures err { OnErr result (self.new ≡ self.old) }
        ensures twice { OnErr result (copies_of (word_of self.old) ≡ 2) }
        ensures only { IsOkUnless result Fault.OutOfMemory }
    {
        let next = self.peek();
        self.hold(alloc, next, packet)?;
        self.next_word();
        Ok(())
    }

    /// A second copy of a packet.
    fn copy_of(&mut self, alloc: Global, packet: &[u8]) -> Result<Vec<u8>, Fault>
        ensures copy { IfOk result (λ copy. copy.items ≡ packet.now) }
        ensures same { self.new ≡ self.old }
        ensures only { IsOkUnless result Fault.OutOfMemory }
    {
        let mut copy = match self.spares.pop() {
            Some(spare) => spare,
            None => Vec::new(alloc),
        };
        copy.clear();
        copy.extend_from_slice(packet)?;
        Ok(copy)
    }

    /// Gives on the packet whose place, counted from 0 in the order of acceptance, is the word
    /// modulo the number held; those after it move up. `None` where nothing is held.
    #[inline(always)]
    pub fn release_by(&mut self, word: u32) -> Option<Vec<u8>>
        ensures packet { option_map (λ packet. packet.items) result ≡ picked word self.old }
        ensures after { self.new ≡ released word self.old }
    {
        if self.held.len() <= 1 {
            return self.held.pop();
        }
        let place = word as usize % self.held.len();
        Some(self.held.remove(place))
    }

    /// Gives on a packet by the next word of the stream, as `release_by` does. `None` where nothing
    /// is held, and then no word is drawn.
    #[inline(always)]
    pub fn release(&mut self) -> Option<Vec<u8>>
        ensures packet { option_map (λ packet. packet.items) result
            ≡ picked (word_of self.old) self.old }
        ensures after { self.old.held ≢ []
            → self.new ≡ released (word_of self.old) (drawn self.old) }
        ensures empty { self.old.held ≡ [] → self.new ≡ self.old }
    {
        match self.held.len() {
            0 => None,
            _ => {
                let word = self.next_word();
                self.release_by(word)
            }
        }
    }

    /// Holds as many copies of a packet as the word asks for. Refused for memory, nothing changes.
    #[inline(always)]
    fn hold(&mut self, alloc: Global, word: u32, packet: Vec<u8>) -> Result<(), Fault>
        ensures ok { OnOk result (self.new ≡ accepted word packet.items self.old) }
        ensures err { OnErr result (self.new ≡ self.old) }
        ensures twice { OnErr result (copies_of word ≡ 2) }
        ensures only { IsOkUnless result Fault.OutOfMemory }
    {
        prove!(self.held.len() <= ROOM);
        match word % CASES {
            0 | 1 => self.lose(packet),
            2 | 3 => {
                let copy = self.copy_of(alloc, packet.as_slice())?;
                self.hold_one(packet);
                self.hold_one(copy);
            }
            _ => self.hold_one(packet),
        }
        Ok(())
    }

    /// A copy is lost: it is counted, and the link keeps its buffer if it has few.
    fn lose(&mut self, packet: Vec<u8>)
        ensures { self.new ≡ record self.old { lost = saturating_sum self.old.lost 1 } }
    {
        self.lost = self.lost.saturating_add(1);
        if self.spares.len() < MOST_SPARES {
            // Where there is no memory to keep it the buffer is let go as well.
            let _kept = self.spares.push(packet);
        }
    }

    /// Holds a packet after the others, or loses it where there is no place.
    #[inline(always)]
    fn hold_one(&mut self, packet: Vec<u8>)
        ensures { self.new ≡ record self.old {
          held = take 16 (self.old.held ++ packet.items ∷ []);
          lost = saturating_sum self.old.lost (length self.old.held + 1 - 16);
        } }
    {
        if self.held.len() < ROOM {
            self.held.push_reserved(packet);
        } else {
            self.lose(packet);
        }
    }
}

/// A link gives on only what it took: what it holds was held before or is the packet accepted, what
/// a word picks was held, and what is held after a release was held before.
pub fn gives_what_it_took()
    // claim: A faulty link passes on only what it took
    ensures accepted { (word : ℕ) (packet text : List ℕ) (line : Line)
        → Has text (accepted word packet line).held → (text ≡ packet) ⊎ Has text line.held }
    ensures picked { (word : ℕ) (text : List ℕ) (line : Line)
        → picked word line ≡ Some text → Has text line.held }
    ensures released { (word : ℕ) (text : List ℕ) (line : Line)
        → Has text (released word line).held → Has text line.held }
{}
