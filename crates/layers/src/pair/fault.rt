ghost use Rattle.std.specs.Prelude.{◌≡◌, ◌^◌, ◌<◌};
ghost use Rattle.layers.specs.Pairs.{pair_code, pair_place};

use lts::Refusal;

// Why two sources are too large for a Pair: there would be more states than a
// source may have; or the lowest state that would have more moves than a state may.
#[derive(Clone, Copy, PartialEq, Debug)]
pub enum PairFault {
    TooManyStates,
    TooManyMoves(u32),
}

impl Refusal for PairFault {
    ghost number = { pair_code };

    ghost about = { pair_place };

    fn code(self) -> u32 {
        match self {
            PairFault::TooManyStates => 7,
            PairFault::TooManyMoves(_) => 8,
        }
    }

    // Where there are too many moves it is about the state.
    fn place(self) -> usize
        ensures value { result ≡ pair_place self }
        ensures bound { result < 2 ^ 32 }
    {
        match self {
            PairFault::TooManyStates => 0,
            PairFault::TooManyMoves(state) => state as usize,
        }
    }
}
