ghost use Rattle.std.specs.Prelude.{◌≡◌, ◌^◌, ◌<◌, ◌≤◌};
ghost use Rattle.charts.specs.Rows.{seconds as whole_seconds, last_second, stay_states};

// How long a row is stayed in. A finite row is left by itself when its dwell,
// in tenths of a second, is over, to the timeout row; an endless row never is.
// No Option of a dwell, which would say by `None` that a row is endless, and would
// have no methods of its own.
#[derive(Clone, Copy, PartialEq, Debug)]
pub enum Stay {
    Finite { tenths: u32, timeout: u32 },
    Endless,
}

// What a row offers all the while: a visible label, and the row it leads to.
#[derive(Clone, Copy, PartialEq, Debug)]
pub struct Offer {
    pub label: u32,
    pub row: u32,
}

// The whole seconds of a dwell: the rest of a second is dropped.
#[tactic(auto, unfolding(crate::specs::Rows::seconds))]
pub(crate) fn seconds(tenths: u32) -> u32
    ensures value { result ≡ whole_seconds tenths }
    ensures bound { result < 2 ^ 31 }
{
    tenths / 10
}

impl Stay {
    // How many ticks lead from the row's first state to its last.
    pub(crate) fn last_second(self) -> u32
        ensures value { result ≡ last_second self }
        ensures bound { result < 2 ^ 31 }
    {
        match self {
            Stay::Finite { tenths, .. } => seconds(tenths),
            Stay::Endless => 0,
        }
    }

    // How many states the row has.
    pub(crate) fn states(self) -> u32
        ensures value { result ≡ stay_states self }
        ensures bound { result ≤ 2 ^ 31 }
    {
        self.last_second() + 1
    }
}
