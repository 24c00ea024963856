// The calls of a batch.
ghost use Rattle.std.specs.Prelude.{◌≡◌, ◌≤◌, [], length};
ghost use Rattle.bells.specs.Due.{rung};
ghost use Rattle.arena.specs.Batches.{push as pushes, spills};
ghost use Rattle.arena.specs.Ringing.{rung_all, each_rung};
ghost use Rattle.arena.specs.Table.{values};

use super::super::arena::Arena;
use super::super::wait::Entry;
use super::{SPILL, Slots, WakerBatch};
use bells::{Bell, Refusal, Waker};

impl<W: Waker + Drop + Copy, const M: usize> WakerBatch<W, M> {
    // An empty batch in the slots, whatever these hold.
    pub fn new(slots: [Option<W>; M]) -> WakerBatch<W, M>
        ensures { result ≡ [] }
    {
        WakerBatch {
            slots: Slots { all: slots },
            len: 0,
        }
    }

    // Whether the batch is to be rung before the next push. It holds no more wakers than it has slots.
    pub fn will_spill(&self) -> bool
        ensures spills { result ≡ spills self.now }
        ensures fits { length self.now ≤ M }
    {
        self.len >= SPILL
    }

    // One waker more, unless all slots are used.
    pub fn push(&mut self, waker: W) -> Result<(), Refusal>
        ensures { (result, self.new) ≡ pushes M waker self.old }
    {
        let end = self.len;
        if end >= M {
            return Err(Refusal::TableFull);
        }
        self.slots.put(end, waker);
        self.len = end + 1;
        Ok(())
    }

    // Forgets the wakers, in constant time.
    pub fn clear(&mut self)
        ensures { self.new ≡ [] }
    {
        self.len = 0;
    }

    // Rings the wakers in pushed order, and empties the batch.
    pub fn wake_all<B: Bell>(&mut self, bell: &mut B)
        ensures rung { B.meaning bell.new ≡ rung_all W.waking.target B.KNOWN (B.meaning bell.old) self.old }
        ensures left { self.new ≡ [] }
    {
        // A plain walk: tried as `iter().flatten()`, and the proof of the loop did not close.
        for slot in &self.slots.all[..self.len] {
            if let Some(waker) = slot {
                bell.ring(waker.target());
            }
        }
        self.clear();
    }

    // One waker more, and what the batch has no slot for is rung at once: once the batch is rung, so is the waker.
    fn add<B: Bell>(&mut self, waker: W, bell: &mut B)
        ensures { rung_all W.waking.target B.KNOWN (B.meaning bell.new) self.new ≡ rung B.KNOWN (W.waking.target waker) (rung_all W.waking.target B.KNOWN (B.meaning bell.old) self.old) }
    {
        if self.will_spill() {
            self.wake_all(bell);
        }
        if self.push(waker).is_err() {
            self.wake_all(bell);
            bell.ring(waker.target());
        }
    }

    // One waker more for each entry, by rising slot: once the batch is rung, all are.
    pub(crate) fn add_all<const N: usize, B: Bell>(
        &mut self,
        entries: &Arena<Entry<W>, N>,
        bell: &mut B,
    )
        ensures { rung_all W.waking.target B.KNOWN (B.meaning bell.new) self.new ≡ each_rung W.waking.target B.KNOWN (rung_all W.waking.target B.KNOWN (B.meaning bell.old) self.old) (values entries.now.cells) }
    {
        // A plain walk, for the reason that stands at `Arena::copy_out`.
        for slot in entries.touched() {
            if let Some(entry) = slot.value() {
                self.add(entry.waker, bell);
            }
        }
    }
}
