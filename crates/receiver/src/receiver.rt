//! The receiver's calls, and what they promise over every log of calls: `specs/Log.antt` and `specs/Promise.antt` say
//! it,
//! `starts` and `goes_on` tie a receiver to its log, and `stands` has the promise.
ghost use Rattle.std.specs.Prelude.{◌≡◌, List, [], ◌∷◌, IfOk, OnErr};
ghost use Rattle.receiver.specs.Arrival.{arrival, arrived};
ghost use Rattle.receiver.specs.Log.{Arrival, call};
ghost use Rattle.receiver.specs.Promise.{Promise, RightReport, RightList};
ghost use Rattle.receiver.specs.Reports.{reported, listed};
ghost use Rattle.receiver.specs.Run.{Run};
ghost use Rattle.receiver.specs.Start.{at_first, Bounded, Sound};

use super::state::{Answer, State};
use carried::Carried;
use refusal::Refusal;
use std::marker::PhantomData;

/// Takes in frames of the field C in any order, and releases the packets of the stream in theirs.
#[derive(Drop)]
pub struct Receiver<C> {
    state: State,
    field: PhantomData<C>,
    ghost bounded: { Bounded 32 state },
}

impl<C: Carried> Receiver<C> {
    /// A receiver that no frame has reached.
    pub fn new() -> Receiver<C>
        ensures exact { result.state ≡ at_first 32 }
        ensures reduced { Sound C.Field.means 32 result.state }
        ensures starts { Run C.Field.means C.carries 32 [] result.state }
        ensures stands { Promise C.Field.means C.carries 32 [] }
    {
        Receiver {
            state: State::new(),
            field: PhantomData,
        }
    }

    /// Takes in a frame. The packets that it releases, 128 numbers each, are written at the start of the number buffer,
    /// which has room for 32 of them; the rest is left.
    pub fn arrive(&mut self, frame: &[u8], numbers: &mut [u16]) -> Result<Answer, Refusal>
        ensures exact { arrival result self.new.state numbers.new ≡ arrived C.Field.means C.carries 32 self.old.state frame.now numbers.old }
        ensures unchanged { OnErr result ((self.new.state ≡ self.old.state) × (numbers.new ≡ numbers.old)) }
        ensures reduced { Sound C.Field.means 32 self.old.state → Sound C.Field.means 32 self.new.state }
        ensures goes_on { (log : List Arrival) → Run C.Field.means C.carries 32 log self.old.state → Run C.Field.means C.carries 32 (call frame.now numbers.old result numbers.new ∷ log) self.new.state }
        ensures stands { (log : List Arrival) → Run C.Field.means C.carries 32 log self.old.state → Promise C.Field.means C.carries 32 (call frame.now numbers.old result numbers.new ∷ log) }
    {
        self.state.arrive::<C>(frame, numbers)
    }

    /// The count of released packets and the oldest unseen number, or 65,536 when all are seen.
    pub fn report(&self) -> (u32, u32)
        ensures exact { result ≡ reported 32 self.now.state }
        ensures stands { (log : List Arrival) → Run C.Field.means C.carries 32 log self.now.state → RightReport C.Field.means C.carries 32 log result }
    {
        self.state.report()
    }

    /// Writes the unseen numbers that an accepted frame reached at the start of the number buffer, which has room for
    /// 32,
    /// in rising order, and answers how many they are; the rest is left.
    pub fn missing(&self, numbers: &mut [u32]) -> Result<usize, Refusal>
        ensures exact { (result, numbers.new) ≡ listed 32 self.now.state numbers.old }
        ensures unchanged { OnErr result (numbers.new ≡ numbers.old) }
        ensures stands { (log : List Arrival) → Run C.Field.means C.carries 32 log self.now.state → IfOk result (λ n. RightList C.Field.means C.carries 32 log n numbers.new) }
    {
        self.state.missing(numbers)
    }
}
