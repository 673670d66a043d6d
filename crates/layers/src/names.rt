ghost use Rattle.std.specs.Prelude.{◌≡◌, ◌^◌, ◌<◌, true, false, MatchResult};
ghost use Rattle.lts.specs.Restriction.{named_by};
ghost use Rattle.layers.specs.Names.{in_set, names_code, names_place};

use lts::label::CO;
use lts::{Refusal, is_visible};

// A set of names: the bit n stands for the name n. No name has the number 0, so
// the lowest bit is never set.
#[derive(Clone, Copy)]
pub(crate) struct NameSet {
    pub(crate) bits: u64,
    ghost named: { in_set bits 0 ≡ false },
}

// Why a number is no set of names: its lowest bit is set.
#[derive(Clone, Copy, PartialEq, Debug)]
pub struct NameSetFault;

impl Refusal for NameSetFault {
    ghost number = { λ _. names_code };

    ghost about = { λ _. names_place };

    fn code(self) -> u32 {
        3
    }

    fn place(self) -> usize
        ensures value { result ≡ names_place }
        ensures bound { result < 2 ^ 32 }
    {
        0
    }
}

// Whether the bit `n` is set.
fn has_bit(bits: u64, n: u32) -> bool
    requires { n < 64 }
    ensures { result ≡ in_set bits n }
{
    (bits >> n) % 2 == 1
}

impl NameSet {
    // The set with these bits, or a refusal where the lowest is set.
    pub(crate) fn new(bits: u64) -> Result<NameSet, NameSetFault>
        ensures { MatchResult result (λ s. (s.bits ≡ bits) × (in_set bits 0 ≡ false)) (λ _. in_set bits 0 ≡ true) }
    {
        if has_bit(bits, 0) {
            return Err(NameSetFault);
        }
        Ok(NameSet { bits })
    }

    // Whether the label is a name of the set or the co-name of one.
    pub(crate) fn holds(self, label: u32) -> bool
        ensures { result ≡ named_by (in_set self.bits) label }
    {
        is_visible(label) && has_bit(self.bits, label % CO)
    }
}
