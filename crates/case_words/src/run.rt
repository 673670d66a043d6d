// Words of a file as a token of text: `W*N` is the word W in hexadecimal, N times in
// decimal, and `W` is that word once.

ghost use Rattle.std.specs.Prelude.{◌≡◌, ◌++◌, OnOk};
ghost use Rattle.std.specs.Int.{to_le_bytes, w32};
ghost use Rattle.std.specs.List.{repeat};
ghost use Rattle.case_words.specs.Tokens.{word_digits, count_digits};

use std::alloc::AllocError;
use std::num::ParseIntError;
use std::str::FromStr;

// One word, so many times in a row.
#[derive(Clone, Copy, PartialEq, Debug)]
pub struct Run {
    pub word: u32,
    pub count: u32,
}

// The digits of the word, and those of how many times.
fn parts(token: &str) -> (&str, &str)
    ensures word { result.0.now ≡ word_digits token.now }
    ensures count { result.1.now ≡ count_digits token.now }
{
    match token.split_once('*') {
        Some(parts) => parts,
        None => (token, "1"),
    }
}

impl FromStr for Run {
    type Err = ParseIntError;

    ghost use Rattle.case_words.specs.Tokens.{ReadsRun};

    ghost from_str_gives = { ReadsRun };

    fn from_str(token: &str) -> Result<Run, ParseIntError> {
        let (word, count) = parts(token);
        let word = u32::from_str_radix(word, 16)?;
        let count = count.parse()?;
        Ok(Run { word, count })
    }
}

impl Run {
    // Appends the bytes of the words, the low byte of each first.
    #[tactic(auto, using(std::proofs::lemmas::Grind::common_steps, crate::proofs::Repeats::repeat_more))]
    pub fn append_to(self, bytes: &mut Vec<u8>) -> Result<(), AllocError>
        ensures { OnOk result (bytes.new.items ≡ bytes.old.items ++ repeat self.count (to_le_bytes w32 self.word)) }
    {
        // What `repeat_n(..).flatten()` yields the check does not find alone.
        for _ in 0..self.count {
            bytes.extend_from_slice(&self.word.to_le_bytes())?;
        }
        Ok(())
    }
}

#[cfg(test)]
mod tests {
    use super::*;
    use std::test::Fail;

    #[test]
    fn tokens(rt: HostRuntime) {
        let word = 0xC000_0001;
        assert_eq!(rt; "C0000001".parse(), Ok(Run { word, count: 1 }));
        assert_eq!(rt; "c0000001*3".parse(), Ok(Run { word, count: 3 }));
        for token in ["", "G", "100000000", "*2", "1*", "1*A", "1*2*3", "+1*-1"] {
            assert!(rt; token.parse::<Run>().is_err());
        }
    }

    #[test]
    fn appends(rt: HostRuntime) -> Result<(), Fail> {
        let mut bytes = Vec::from_slice(rt.alloc(), &[9])?;
        let run = Run {
            word: 0x0403_0201,
            count: 2,
        };
        run.append_to(&mut bytes)?;
        assert!(rt; bytes.as_slice() == [9, 1, 2, 3, 4, 1, 2, 3, 4].as_slice());
        Ok(())
    }
}
