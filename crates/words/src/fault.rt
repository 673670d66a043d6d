// Why a file is refused, as far as its words tell, and at which word.

ghost use Rattle.std.specs.Prelude.{◌≡◌};
ghost use Rattle.words.specs.Faults.{fault_code, fault_place};

use lts::Refusal;

#[derive(Clone, Copy, PartialEq, Debug)]
pub enum WordFault {
    // The words end early, are left over, or are too many.
    Length(usize),
    // Another kind of word is due, or an unused bit is set.
    Form(usize),
    // A field is out of range.
    Range(usize),
}

impl Refusal for WordFault {
    ghost number = { fault_code };

    ghost about = { fault_place };

    fn code(self) -> u32 {
        match self {
            WordFault::Length(_) => 1,
            WordFault::Form(_) => 2,
            WordFault::Range(_) => 3,
        }
    }

    // The place of the word, counted from 0.
    fn place(self) -> usize {
        match self {
            WordFault::Length(place) | WordFault::Form(place) | WordFault::Range(place) => place,
        }
    }
}
