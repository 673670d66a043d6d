ghost use Rattle.std.specs.Prelude.{◌≡◌, true, false, MatchResult};
ghost use Rattle.layers.specs.Names.{in_set};
ghost use Rattle.layers.specs.Fences.{fence_meaning};
ghost use Rattle.layers.specs.FenceLaws.{fence_laws};

use crate::names::{NameSet, NameSetFault};
use lts::{Move, OutOfRange, Source, State};

// A source behind a fence: the moves that carry a name of the set, or its
// co-name, are dropped.
#[derive(Drop)]
pub struct Fence<S> {
    source: S,
    names: NameSet,
}

impl<S: Source + Drop> Fence<S> {
    // Fences the source off by the set of names whose bits these are. Where the
    // bits are no such set, the source is let go.
    pub fn new(source: S, bits: u64) -> Result<Fence<S>, NameSetFault>
        ensures { MatchResult result (λ f. (f.source ≡ source) × (f.names.bits ≡ bits) × (in_set bits 0 ≡ false)) (λ _. in_set bits 0 ≡ true) }
    {
        let names = NameSet::new(bits)?;
        Ok(Fence { source, names })
    }
}

impl<S: Source> Source for Fence<S> {
    ghost meaning = { λ f. fence_meaning (in_set f.names.bits) (S.Source.meaning f.source) };

    ghost lawful = { λ x. fence_laws (in_set x.names.bits) (S.Source.meaning x.source) (S.Source.lawful x.source) };

    fn states(&self) -> u32 {
        self.source.states()
    }

    // What is kept is said in both questions, since its type has the closure's and so no
    // name that a function could return it by.
    fn move_count(&self, s: u32) -> Result<u32, OutOfRange> {
        let state = State::of(&self.source, s)?;
        let kept = state.moves().filter(|step| !self.names.holds(step.label));
        Ok(kept.count() as u32)
    }

    fn move_at(&self, s: u32, k: u32) -> Result<Move<u32>, OutOfRange> {
        let state = State::of(&self.source, s)?;
        let mut kept = state.moves().filter(|step| !self.names.holds(step.label));
        kept.nth(k as usize).ok_or(OutOfRange)
    }

    fn tick(&self, s: u32) -> Result<Option<u32>, OutOfRange> {
        self.source.tick(s)
    }
}
