ghost use Rattle.std.specs.Prelude.{◌≡◌};
ghost use Rattle.charts.specs.Faults.{fault_code, fault_place};
ghost use Rattle.charts.specs.declared.fault.ChartFault.TheVariants.{Word};

use lts::Refusal;
use words::WordFault;

// Why a list of words is no chart: a fault of one word, or more states than a
// source may have, with the place of the first word of the row that passes it.
#[derive(Clone, Copy, PartialEq, Debug)]
pub enum ChartFault {
    Word(WordFault),
    TooManyStates(usize),
}

// By hand, since a derived conversion has no clause and `?` would then say nothing.
impl From<WordFault> for ChartFault {
    ghost from_gives = { λ w f. f ≡ Word w };

    fn from(w: WordFault) -> ChartFault {
        ChartFault::Word(w)
    }
}

impl Refusal for ChartFault {
    ghost number = { fault_code };

    ghost about = { fault_place };

    fn code(self) -> u32 {
        match self {
            ChartFault::Word(fault) => fault.code(),
            ChartFault::TooManyStates(_) => 7,
        }
    }

    fn place(self) -> usize {
        match self {
            ChartFault::Word(fault) => fault.place(),
            ChartFault::TooManyStates(place) => place,
        }
    }
}
