// The words of a file, one after another, each with its place.

ghost use Rattle.std.specs.Prelude.{◌≡◌, ◌+◌, ◌^◌, ◌<◌, true, [], ◌∷◌, length, MatchResult};
ghost use Rattle.words.specs.declared.fault.WordFault.TheVariants.{Length};

use crate::fault::WordFault;
use crate::word::PlacedWord;

// The words of a file that are still to be read, and the place of the first of them.
#[derive(Drop)]
pub struct Cursor<'a> {
    pub(crate) rest: &'a [u32],
    pub(crate) place: usize,
    ghost inside: { place + length rest.now < 2 ^ 63 },
}

impl<'a> Cursor<'a> {
    // At the first of the words.
    pub fn new(words: &'a [u32]) -> Cursor<'a>
        ensures { (result.rest.now ≡ words.now) × (result.place ≡ 0) }
    {
        Cursor {
            rest: words,
            place: 0,
        }
    }

    // The next word, or the fault that the words end early.
    pub fn read(&mut self) -> Result<PlacedWord, WordFault>
        ensures { MatchResult result
            (λ w. (self.old.rest.now ≡ w.word ∷ self.new.rest.now) × (w.place ≡ self.old.place) × (self.new.place ≡ self.old.place + 1))
            (λ f. (self.old.rest.now ≡ []) × (f ≡ Length self.old.place) × (self.new ≡ self.old)) }
    {
        let place = self.place;
        let [word, rest @ ..] = self.rest else {
            return Err(WordFault::Length(place));
        };
        *self = Cursor {
            rest,
            place: place + 1,
        };
        Ok(PlacedWord { word: *word, place })
    }

    // The place of the next word.
    pub fn place(&self) -> usize
        ensures { result ≡ self.now.place }
    {
        self.place
    }

    // Refuses words that are left over.
    pub fn end(&self) -> Result<(), WordFault>
        ensures { MatchResult result (λ _. self.now.rest.now ≡ []) (λ f. (0 < length self.now.rest.now) × (f ≡ Length self.now.place)) }
    {
        if self.rest.is_empty() {
            Ok(())
        } else {
            Err(WordFault::Length(self.place))
        }
    }
}
