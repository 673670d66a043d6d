// The states of a source, each with its moves in order.

ghost use Rattle.std.specs.Prelude.{◌≡◌, ◌<◌, ◌≤◌, drop, length, MatchResult};
ghost use Rattle.std.specs.List.{slice_get};
ghost use Rattle.std.specs.Iterator.{YieldsFirst, item_count};
ghost use Rattle.lts.specs.Answers.{tick_of};

use crate::source::{Move, OutOfRange, Source};

// A state of a source, by its number.
#[derive(Drop)]
pub struct State<'a, S: Source> {
    source: &'a S,
    number: u32,
    ghost inside: { number < (S.meaning source.now).count },
}

// The moves of a state that are still to come, in order. The next one's place is counted
// here, since a chain over the places would have a closure's type and so no name.
#[derive(Drop)]
pub struct Moves<'a, S: Source> {
    state: State<'a, S>,
    next: u32,
}

impl<'a, S: Source> State<'a, S> {
    // The state of the source with that number.
    pub fn of(source: &'a S, number: u32) -> Result<State<'a, S>, OutOfRange>
        ensures { MatchResult result (λ s. (s.source.now ≡ source.now) × (s.number ≡ number)) (λ _. (S.meaning source.now).count ≤ number) }
    {
        if number >= source.states() {
            return Err(OutOfRange);
        }
        Ok(State { source, number })
    }

    // Its number.
    pub fn number(&self) -> u32
        ensures { result ≡ self.now.number }
    {
        self.number
    }

    // How many moves it has.
    #[tactic(auto, using(crate::proofs::Asked::was_counted, crate::proofs::Asked::was_not_counted))]
    pub fn move_count(&self) -> u32
        ensures { result ≡ length ((S.meaning self.now.source.now).moves self.now.number) }
    {
        self.source.move_count(self.number).unwrap()
    }

    // Its `k`-th move, if it has so many.
    #[tactic(auto, using(crate::proofs::Asked::nth_given))]
    pub fn move_at(&self, k: u32) -> Option<Move<u32>>
        ensures { result ≡ slice_get ((S.meaning self.now.source.now).moves self.now.number) k }
    {
        self.source.move_at(self.number, k).ok()
    }

    // Its moves, in order.
    pub fn moves(&self) -> Moves<'a, S>
        ensures { drop result.next ((S.meaning result.state.source.now).moves result.state.number) ≡ (S.meaning self.now.source.now).moves self.now.number }
    {
        let state = State {
            source: self.source,
            number: self.number,
        };
        Moves { state, next: 0 }
    }

    // Where its tick leads, if it has one.
    #[tactic(auto, using(crate::proofs::Asked::was_ticked, crate::proofs::Asked::was_not_ticked))]
    pub fn tick(&self) -> Option<u32>
        ensures { result ≡ tick_of ((S.meaning self.now.source.now).moves self.now.number) }
    {
        self.source.tick(self.number).unwrap()
    }
}

impl<'a, S: Source> Iterator for Moves<'a, S> {
    type Item = Move<u32>;

    ghost next_gives = { YieldsFirst (λ m. drop m.next ((S.Source.meaning m.state.source.now).moves m.state.number)) };

    ghost remaining = { item_count (λ m. drop m.next ((S.Source.meaning m.state.source.now).moves m.state.number)) };

    #[tactic(auto, using(crate::proofs::Walking::none_left, crate::proofs::Walking::one_left, crate::proofs::Walking::few_left))]
    fn next(&mut self) -> Option<Move<u32>> {
        let step = self.state.move_at(self.next)?;
        self.next += 1;
        Some(step)
    }
}
