// Strong equivalence is defined in specs/Equivalence.antt and specs/Strong.antt.

ghost use Rattle.lts.specs.Strong.{Reflexive, Symmetric, Transitive};

// Nothing to run: strong equivalence is reflexive and symmetric, and transitive
// over sources that keep the laws.
pub fn strong_equivalence_is_an_equivalence()
    ensures reflexive { Reflexive }
    ensures symmetric { Symmetric }
    ensures transitive { Transitive }
{}
