// One word: its top four bits are its kind, the other 28 its payload. There is
// a decoder for each place at which a word may be due.

ghost use Rattle.std.specs.Prelude.{◌≡◌};
ghost use Rattle.words.specs.Decoded.{decoded};
ghost use Rattle.words.specs.Encoded.{DecodingIsExact};
ghost use Rattle.words.specs.Kinds.{number};
ghost use Rattle.words.specs.Words.{kind as kind_of, payload as payload_of, counted as counted_in, definitions_in, states_in, moves_in, rows_in, offers_in, arrow_in, row_in};
ghost use Rattle.words.specs.declared.fault.WordFault.TheVariants.{Form, Range};

use crate::fault::WordFault;
use crate::kind::{Kind, PAYLOADS};
use crate::term::Operator;
use lts::{MOST_MOVES, MOST_STATES, Move, is_label};

// The longest dwell of a chart's row, in tenths of a second.
pub const MOST_TENTHS: u32 = 40_959;

// The most rows of a chart.
pub const MOST_ROWS: u32 = 256;

// The most offers of a chart's row.
pub const MOST_OFFERS: u32 = 62;

// The most definitions of a book.
const MOST_DEFINITIONS: u32 = 256;

// The head of a chart's row: its dwell in tenths of a second, or that it does
// not end. No Option, since a word of its own says the latter, and `None` would
// read as if no word did.
#[derive(Clone, Copy, PartialEq, Debug)]
pub enum RowHead {
    Dwell(u32),
    Endless,
}

// What a word says by itself, whatever is due at its place.
#[derive(Clone, Copy, PartialEq, Debug)]
pub enum Word {
    Operator(Operator),
    Definitions(u32),
    States(u32),
    Moves(u32),
    Move(Move<u32>),
    Rows(u32),
    Row(RowHead),
    Offers(u32),
}

// A word and its place in the file, counted from 0.
#[derive(Clone, Copy, PartialEq, Debug)]
pub struct PlacedWord {
    pub word: u32,
    pub place: usize,
}

impl PlacedWord {
    pub(crate) fn kind(self) -> Kind
        ensures { number result ≡ kind_of self.word }
    {
        Kind::from(self.word)
    }

    // All of the word but its kind.
    pub(crate) fn payload(self) -> u32
        ensures { result ≡ payload_of self.word }
    {
        self.word % PAYLOADS
    }

    // The fault that another kind is due, or an unused bit is set.
    pub(crate) fn ill_formed(self) -> WordFault
        ensures { result ≡ Form self.place }
    {
        WordFault::Form(self.place)
    }

    // The fault that a field is out of range.
    pub(crate) fn out_of_range(self) -> WordFault
        ensures { result ≡ Range self.place }
    {
        WordFault::Range(self.place)
    }

    // A number from `least` to `most`, in a word of the kind that is due. The five
    // decoders below are this one, each with a name for its kind and range.
    fn counted(self, due: Kind, least: u32, most: u32) -> Result<u32, WordFault>
        ensures { result ≡ counted_in (number due) least most self.place self.word }
    {
        if self.kind() != due {
            return Err(self.ill_formed());
        }
        let payload = self.payload();
        // Not by a range's `contains`: the proof then stands at the limit of the search.
        if payload < least || payload > most {
            return Err(self.out_of_range());
        }
        Ok(payload)
    }

    // The number of definitions.
    pub fn definitions(self) -> Result<u32, WordFault>
        ensures { result ≡ definitions_in self.place self.word }
    {
        self.counted(Kind::Definitions, 0, MOST_DEFINITIONS)
    }

    // The number of states.
    pub fn states(self) -> Result<u32, WordFault>
        ensures { result ≡ states_in self.place self.word }
    {
        self.counted(Kind::States, 1, MOST_STATES)
    }

    // The number of moves of a state.
    pub fn moves(self) -> Result<u32, WordFault>
        ensures { result ≡ moves_in self.place self.word }
    {
        self.counted(Kind::Moves, 1, MOST_MOVES)
    }

    // The number of rows of a chart.
    pub fn rows(self) -> Result<u32, WordFault>
        ensures { result ≡ rows_in self.place self.word }
    {
        self.counted(Kind::Rows, 1, MOST_ROWS)
    }

    // The number of offers of a row.
    pub fn offers(self) -> Result<u32, WordFault>
        ensures { result ≡ offers_in self.place self.word }
    {
        self.counted(Kind::Offers, 0, MOST_OFFERS)
    }

    // A word B, here called an arrow: a move with its label in the upper eight bits
    // of the payload and its target below.
    pub fn arrow(self) -> Result<Move<u32>, WordFault>
        ensures { result ≡ arrow_in self.place self.word }
    {
        if self.kind() != Kind::Arrow {
            return Err(self.ill_formed());
        }
        let label = self.payload() / 0x10_0000;
        if !is_label(label) {
            return Err(self.out_of_range());
        }
        Ok(Move {
            label,
            target: self.payload() % 0x10_0000,
        })
    }

    // The head of a chart's row.
    pub fn row(self) -> Result<RowHead, WordFault>
        ensures { result ≡ row_in self.place self.word }
    {
        let payload = self.payload();
        match self.kind() {
            Kind::Dwell if payload > MOST_TENTHS => Err(self.out_of_range()),
            Kind::Dwell => Ok(RowHead::Dwell(payload)),
            Kind::Endless if payload == 0 => Ok(RowHead::Endless),
            _ => Err(self.ill_formed()),
        }
    }

    // What a word says by itself, by its kind.
    pub fn decode(self) -> Result<Word, WordFault>
        ensures { result ≡ decoded self.place self.word }
    {
        match self.kind() {
            Kind::Definitions => Ok(Word::Definitions(self.definitions()?)),
            Kind::States => Ok(Word::States(self.states()?)),
            Kind::Moves => Ok(Word::Moves(self.moves()?)),
            Kind::Arrow => Ok(Word::Move(self.arrow()?)),
            Kind::Rows => Ok(Word::Rows(self.rows()?)),
            Kind::Dwell | Kind::Endless => Ok(Word::Row(self.row()?)),
            Kind::Offers => Ok(Word::Offers(self.offers()?)),
            _ => Ok(Word::Operator(self.operator()?)),
        }
    }
}

// Nothing to run: a word that is not refused is the word of what it says, and
// whatever is in range is said by its own word.
pub fn decoding_is_exact()
    ensures { DecodingIsExact }
{}

// The code of the fault that is read in the word, if it is one: what the tests look at.
#[cfg(test)]
pub(crate) fn fault_code<T: Drop, F: FnOnce(PlacedWord) -> Result<T, WordFault>>(
    word: u32,
    read: F,
) -> Option<u32>
    requires { F.IsAlwaysCallable read }
{
    let fault = read(PlacedWord { word, place: 5 }).err()?;
    Some(lts::Refusal::code(fault))
}

#[cfg(test)]
mod tests {
    use super::*;

    // The words below lie at the edges of the ranges.
    #[test]
    fn in_range(rt: HostRuntime) {
        for word in &[
            0x7FFF_FFFF,
            0x8000_0000,
            0x8000_0100,
            0x9000_0001,
            0x9000_1000,
            0xA000_0001,
            0xA000_0040,
            0xB00F_FFFF,
            0xB800_0000,
            0xC000_0001,
            0xC000_0100,
            0xD000_0000,
            0xD000_9FFF,
            0xE000_0000,
            0xF000_0000,
            0xF000_003E,
        ] {
            assert_eq!(rt; fault_code(*word, PlacedWord::decode), None);
        }
    }

    #[test]
    fn out_of_range(rt: HostRuntime) {
        for word in &[
            0x8000_0101,
            0x9000_0000,
            0x9000_1001,
            0xA000_0000,
            0xA000_0041,
            0xB400_0000,
            0xB810_0000,
            0xC000_0000,
            0xC000_0101,
            0xD000_A000,
            0xF000_003F,
        ] {
            assert_eq!(rt; fault_code(*word, PlacedWord::decode), Some(3));
        }
    }

    #[test]
    fn fields(rt: HostRuntime) {
        let at = |word| PlacedWord { word, place: 2 };
        assert_eq!(rt; at(0x8000_0001).states(), Err(WordFault::Form(2)));
        assert_eq!(rt;
            at(0xB410_0007).arrow(),
            Ok(Move {
                label: 65,
                target: 7,
            })
        );
        assert_eq!(rt; at(0xE000_0001).row(), Err(WordFault::Form(2)));
        assert_eq!(rt; at(0xF000_0000).row(), Err(WordFault::Form(2)));
    }
}
