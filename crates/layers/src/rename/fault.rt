ghost use Rattle.std.specs.Prelude.{◌≡◌, ◌^◌, ◌<◌};
ghost use Rattle.layers.specs.Renames.{rename_code, rename_place};

use lts::Refusal;

// Why two numbers are no renaming: the name that is to become another is none, or
// what it is to become is none.
#[derive(Clone, Copy, PartialEq, Debug)]
pub enum RenameFault {
    From,
    To,
}

impl Refusal for RenameFault {
    ghost number = { rename_code };

    ghost about = { rename_place };

    fn code(self) -> u32 {
        3
    }

    // 0 for the first number, 1 for the second.
    fn place(self) -> usize
        ensures value { result ≡ rename_place self }
        ensures bound { result < 2 ^ 32 }
    {
        match self {
            RenameFault::From => 0,
            RenameFault::To => 1,
        }
    }
}
