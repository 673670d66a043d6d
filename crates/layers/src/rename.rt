// Rename: a source with one name turned into another.

pub mod fault;

ghost use Rattle.std.specs.Prelude.{◌≡◌, true, MatchResult};
ghost use Rattle.lts.specs.Relabelling.{renamed};
ghost use Rattle.layers.specs.Names.{is_name as named};
ghost use Rattle.layers.specs.Renames.{rename_meaning, Unnamed};
ghost use Rattle.layers.specs.RenameLaws.{rename_laws};

use fault::RenameFault;
use lts::label::CO;
use lts::{Move, OutOfRange, Source};

// One name that is to become another, and its co-name the other's. All else stays,
// the labels `to` and its co-name too.
#[derive(Clone, Copy)]
pub(crate) struct Renaming {
    pub(crate) from: u32,
    pub(crate) to: u32,
    ghost from_named: { named from ≡ true },
    ghost to_named: { named to ≡ true },
}

// A source in which one name has become another.
#[derive(Drop)]
pub struct Rename<S> {
    source: S,
    names: Renaming,
}

// Whether `n` is a name.
fn is_name(n: u32) -> bool
    ensures { result ≡ named n }
{
    (1..CO).contains(&n)
}

impl Renaming {
    // Of these two, or a refusal where one of them is no name.
    pub(crate) fn new(from: u32, to: u32) -> Result<Renaming, RenameFault>
        ensures { MatchResult result (λ n. (n.from ≡ from) × (n.to ≡ to) × (named from ≡ true) × (named to ≡ true)) (λ f. Unnamed from to f) }
    {
        if !is_name(from) {
            return Err(RenameFault::From);
        }
        if !is_name(to) {
            return Err(RenameFault::To);
        }
        Ok(Renaming { from, to })
    }

    // What the label becomes.
    pub(crate) fn label(self, label: u32) -> u32
        ensures { result ≡ renamed self.from self.to label }
    {
        if label == self.from {
            self.to
        } else if label == self.from + CO {
            self.to + CO
        } else {
            label
        }
    }
}

impl<S: Source + Drop> Rename<S> {
    // Renames `from` to `to` in the source. Where one of them is no name, the source
    // is let go.
    pub fn new(source: S, from: u32, to: u32) -> Result<Rename<S>, RenameFault>
        ensures { MatchResult result (λ n. (n.source ≡ source) × (n.names.from ≡ from) × (n.names.to ≡ to) × (named from ≡ true) × (named to ≡ true)) (λ f. Unnamed from to f) }
    {
        let names = Renaming::new(from, to)?;
        Ok(Rename { source, names })
    }
}

impl<S: Source> Source for Rename<S> {
    ghost meaning = { λ n. rename_meaning n.names.from n.names.to (S.Source.meaning n.source) };

    ghost lawful = { λ x. rename_laws x.names.from x.names.to x.names.from_named x.names.to_named (S.Source.meaning x.source) (S.Source.lawful x.source) };

    fn states(&self) -> u32 {
        self.source.states()
    }

    #[tactic(auto, using(crate::proofs::Renaming::rename_count))]
    fn move_count(&self, s: u32) -> Result<u32, OutOfRange> {
        self.source.move_count(s)
    }

    #[tactic(auto, using(crate::proofs::Renaming::rename_finds, crate::proofs::Renaming::rename_misses))]
    fn move_at(&self, s: u32, k: u32) -> Result<Move<u32>, OutOfRange> {
        let Move { label, target } = self.source.move_at(s, k)?;
        Ok(Move {
            label: self.names.label(label),
            target,
        })
    }

    #[tactic(auto, using(crate::proofs::Renaming::rename_tick))]
    fn tick(&self, s: u32) -> Result<Option<u32>, OutOfRange> {
        self.source.tick(s)
    }
}
