// The words of an agent's term: the kinds 0 to 7.

ghost use Rattle.std.specs.Prelude.{◌≡◌};
ghost use Rattle.words.specs.Operators.{bare_in, prefix_in, delay_in, restrict_in, relabel_in, operator_in};

use crate::fault::WordFault;
use crate::kind::Kind;
use crate::term::{Delay, Operator};
use crate::word::PlacedWord;
use lts::is_label;
use lts::label::TICK;

impl PlacedWord {
    // An operator with nothing in its payload.
    fn bare(self, found: Operator) -> Result<Operator, WordFault>
        ensures { result ≡ bare_in found self.place self.word }
    {
        if self.payload() != 0 {
            return Err(self.ill_formed());
        }
        Ok(found)
    }

    // A prefix by a label, which is no tick.
    #[tactic(auto, unfolding(lts::specs::Labels::label))]
    fn prefix(self) -> Result<Operator, WordFault>
        ensures { result ≡ prefix_in self.place self.word }
    {
        let label = self.payload();
        if label >= 256 {
            return Err(self.ill_formed());
        }
        if label == TICK || !is_label(label) {
            return Err(self.out_of_range());
        }
        Ok(Operator::Prefix(label))
    }

    // A delay: the form in the payload's upper two bits, then how many prefixes
    // stand between in three, then the seconds.
    fn delay(self) -> Result<Operator, WordFault>
        ensures { result ≡ delay_in self.place self.word }
    {
        let payload = self.payload();
        let form = payload / 0x400_0000;
        let between = payload % 0x400_0000 / 0x80_0000;
        let seconds = payload % 0x80_0000;
        match form {
            0 if between != 0 => Err(self.ill_formed()),
            _ if seconds >= 4096 => Err(self.out_of_range()),
            0 => Ok(Operator::Delay(Delay::Constant(seconds))),
            1 => Ok(Operator::Delay(Delay::Plus { between, seconds })),
            2 if seconds > 0 => Ok(Operator::Delay(Delay::Less { between, seconds })),
            _ => Err(self.out_of_range()),
        }
    }

    // A restriction of a name.
    fn restrict(self) -> Result<Operator, WordFault>
        ensures { result ≡ restrict_in self.place self.word }
    {
        let name = self.payload();
        if name >= 64 {
            return Err(self.ill_formed());
        }
        if name == 0 {
            return Err(self.out_of_range());
        }
        Ok(Operator::Restrict(name))
    }

    // A relabelling of one name, in the lower six bits, to another.
    fn relabel(self) -> Result<Operator, WordFault>
        ensures { result ≡ relabel_in self.place self.word }
    {
        let payload = self.payload();
        if payload >= 4096 {
            return Err(self.ill_formed());
        }
        let from = payload % 64;
        let to = payload / 64;
        if from == 0 || to == 0 {
            return Err(self.out_of_range());
        }
        Ok(Operator::Relabel { from, to })
    }

    // An operator of a term.
    pub fn operator(self) -> Result<Operator, WordFault>
        ensures { result ≡ operator_in self.place self.word }
    {
        match self.kind() {
            Kind::Nil => self.bare(Operator::Nil),
            Kind::Prefix => self.prefix(),
            Kind::Delay => self.delay(),
            Kind::Sum => self.bare(Operator::Sum),
            Kind::Compose => self.bare(Operator::Compose),
            Kind::Restrict => self.restrict(),
            Kind::Relabel => self.relabel(),
            Kind::Refer => Ok(Operator::Refer(self.payload())),
            _ => Err(self.ill_formed()),
        }
    }
}

#[cfg(test)]
mod tests {
    use super::*;
    use crate::word::fault_code;

    // The words below lie at the edges of the ranges.
    #[test]
    fn in_range(rt: HostRuntime) {
        for word in &[
            0x0000_0000,
            0x1000_0000,
            0x1000_007F,
            0x2000_0FFF,
            0x2780_0000,
            0x2B80_0001,
            0x3000_0000,
            0x4000_0000,
            0x5000_0001,
            0x5000_003F,
            0x6000_0FFF,
            0x7FFF_FFFF,
        ] {
            assert_eq!(rt; fault_code(*word, PlacedWord::operator), None);
        }
    }

    #[test]
    fn ill_formed(rt: HostRuntime) {
        for word in &[
            0x0000_0001,
            0x1000_0100,
            0x2080_1000,
            0x3000_0001,
            0x4000_0001,
            0x5000_0040,
            0x6000_1041,
            0x8000_0000,
        ] {
            assert_eq!(rt; fault_code(*word, PlacedWord::operator), Some(2));
        }
    }

    #[test]
    fn out_of_range(rt: HostRuntime) {
        for word in &[
            0x1000_0040,
            0x1000_0080,
            0x2000_1000,
            0x2B80_0000,
            0x2C00_0001,
            0x5000_0000,
            0x6000_003F,
            0x6000_0FC0,
        ] {
            assert_eq!(rt; fault_code(*word, PlacedWord::operator), Some(3));
        }
    }

    #[test]
    fn fields(rt: HostRuntime) {
        let at = |word| PlacedWord { word, place: 5 };
        let delay = Delay::Less {
            between: 1,
            seconds: 2,
        };
        assert_eq!(rt; at(0x2880_0002).operator(), Ok(Operator::Delay(delay)));
        assert_eq!(rt;
            at(0x6000_0FC1).operator(),
            Ok(Operator::Relabel { from: 1, to: 63 })
        );
    }
}
