ghost use Rattle.std.specs.Prelude.{◌≡◌};
ghost use Rattle.lts.specs.Meaning.{Meaning, Laws};
ghost use Rattle.lts.specs.Answers.{move_count, nth_move, tick_target, range_code};

// The most states that a source may have.
pub const MOST_STATES: u32 = 4_096;

// The most moves that a state may have.
pub const MOST_MOVES: u32 = 64;

// One step that can be taken: its label, and where it leads. The target is a
// state's number, or whatever else a step can lead to.
#[derive(Clone, Copy, PartialEq, Debug)]
pub struct Move<T> {
    pub label: u32,
    pub target: T,
}

// The one refusal of a source: the state or the move asked for is not there.
#[derive(Clone, Copy, PartialEq, Debug)]
pub struct OutOfRange;

impl OutOfRange {
    // The number of this refusal, which is about no place and so is no `Refusal`.
    pub fn code(self) -> u32
        ensures { result ≡ range_code }
    {
        10
    }
}

// A transition source: states numbered from 0, and for each a list of moves.
// Whatever implements it says what it means and proves the laws for every
// value; then each answer is the meaning's.
pub trait Source {
    ghost meaning: { Self → Meaning };

    // How many states there are.
    fn states(&self) -> u32
        ensures { result ≡ (meaning self.now).count };

    // How many moves the state `s` has.
    fn move_count(&self, s: u32) -> Result<u32, OutOfRange>
        ensures { result ≡ move_count (meaning self.now) s };

    // The `k`-th move of the state `s`, counted from 0.
    fn move_at(&self, s: u32, k: u32) -> Result<Move<u32>, OutOfRange>
        ensures { result ≡ nth_move (meaning self.now) s k };

    // Where the tick of the state `s` leads, if it has one.
    fn tick(&self, s: u32) -> Result<Option<u32>, OutOfRange>
        ensures { result ≡ tick_target (meaning self.now) s };

    ghost lawful: { (x : Self) → Laws (meaning x) };
}
