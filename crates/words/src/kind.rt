// What kind a word is of: its top four bits.

ghost use Rattle.std.specs.Prelude.{◌≡◌};
ghost use Rattle.words.specs.Words.{kind};
ghost use Rattle.words.specs.Kinds.{number};

// How many payloads there are: the kind stands above the lower 28 bits.
pub(crate) const PAYLOADS: u32 = 0x1000_0000;

// The sixteen kinds by their numbers, from 0.
#[derive(Clone, Copy, PartialEq, Debug)]
pub(crate) enum Kind {
    Nil,
    Prefix,
    Delay,
    Sum,
    Compose,
    Restrict,
    Relabel,
    Refer,
    Definitions,
    States,
    Moves,
    Arrow,
    Rows,
    Dwell,
    Endless,
    Offers,
}

// The kind of a word.
impl From<u32> for Kind {
    ghost from_gives = { λ w k. number k ≡ kind w };

    fn from(word: u32) -> Kind {
        match word / PAYLOADS {
            0 => Kind::Nil,
            1 => Kind::Prefix,
            2 => Kind::Delay,
            3 => Kind::Sum,
            4 => Kind::Compose,
            5 => Kind::Restrict,
            6 => Kind::Relabel,
            7 => Kind::Refer,
            8 => Kind::Definitions,
            9 => Kind::States,
            10 => Kind::Moves,
            11 => Kind::Arrow,
            12 => Kind::Rows,
            13 => Kind::Dwell,
            14 => Kind::Endless,
            _ => Kind::Offers,
        }
    }
}
