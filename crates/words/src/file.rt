// The words of a file, from its bytes. The room for the longest file is
// reserved once, so reading one needs no memory.

ghost use Rattle.std.specs.Prelude.{◌≡◌, ◌+◌, ◌/◌, ◌≤◌, [], ◌++◌, length, IfOk, Ok, Err, vec_len, vec_capacity, MatchResult};
ghost use Rattle.words.specs.Bytes.{little, longest, words_of_bytes};

use crate::fault::WordFault;
use std::alloc::{AllocError, Global};

// The most words that a file can have.
pub const LONGEST: usize = 16_384;

// A place for the words of a file.
#[derive(Drop)]
pub struct WordFile {
    words: Vec<u32>,
    ghost room: { longest ≤ vec_capacity words },
}

// Appends the words of `bytes`, for which there is room.
fn append(words: &mut Vec<u32>, bytes: &[u8])
    requires { vec_len words.old + length bytes.now / 4 ≤ vec_capacity words.old }
    ensures items { words.new.items ≡ words.old.items ++ little bytes.now }
    ensures capacity { vec_capacity words.new ≡ vec_capacity words.old }
{
    let (chunks, _) = bytes.as_chunks::<4>();
    for word in chunks {
        words.push_reserved(u32::from_le_bytes(*word));
    }
}

impl WordFile {
    // A place with no words in it.
    pub fn new(heap: Global) -> Result<WordFile, AllocError>
        ensures { IfOk result (λ f. f.words.items ≡ []) }
    {
        let words = Vec::with_capacity(heap, LONGEST)?;
        Ok(WordFile { words })
    }

    // Puts the words of `bytes` here in place of those before, and says how many
    // they are. A refusal leaves the place as it was.
    #[tactic(auto, using(crate::proofs::Little::length_little))]
    pub fn fill(&mut self, bytes: &[u8]) -> Result<usize, WordFault>
        ensures { MatchResult result
            (λ n. (words_of_bytes bytes.now ≡ Ok self.new.words.items) × (n ≡ length self.new.words.items))
            (λ f. (words_of_bytes bytes.now ≡ Err f) × (self.new ≡ self.old)) }
    {
        let count = bytes.len() / 4;
        if count > LONGEST {
            return Err(WordFault::Length(LONGEST));
        }
        if bytes.len() % 4 != 0 {
            return Err(WordFault::Length(count));
        }
        self.words.clear();
        append(&mut self.words, bytes);
        Ok(count)
    }

    // The words.
    pub fn words(&self) -> &[u32]
        ensures { result.now ≡ self.now.words.items }
    {
        self.words.as_slice()
    }
}

#[cfg(test)]
mod tests {
    use super::*;
    use std::test::Fail;

    // The low byte comes first, and what is refused leaves the words as they were.
    #[test]
    fn fills(rt: HostRuntime) -> Result<(), Fail> {
        let mut file = WordFile::new(rt.alloc())?;
        assert_eq!(rt; file.fill(&[1, 2, 3, 4, 0, 0, 0, 128]), Ok(2));
        assert_eq!(rt; file.fill(&[9, 9, 9, 9, 9]), Err(WordFault::Length(1)));
        assert!(rt; file.words() == [0x0403_0201, 0x8000_0000].as_slice());
        assert_eq!(rt; file.fill(&[]), Ok(0));
        assert!(rt; file.words().is_empty());
        Ok(())
    }

    #[test]
    fn edges(rt: HostRuntime) -> Result<(), Fail> {
        let mut file = WordFile::new(rt.alloc())?;
        let bytes = [0u8; 65_540];
        assert_eq!(rt; file.fill(&bytes[..65_536]), Ok(16_384));
        assert_eq!(rt; file.fill(&bytes[..65_537]), Err(WordFault::Length(16_384)));
        assert_eq!(rt; file.fill(&bytes), Err(WordFault::Length(16_384)));
        Ok(())
    }
}
