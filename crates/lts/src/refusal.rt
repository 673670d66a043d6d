ghost use Rattle.std.specs.Prelude.{◌≡◌, ℕ};

// Why something is refused. A refusal is printed by two numbers: that of its kind, and
// the place that it is about, which is a word's, a state's or an argument's number.
pub trait Refusal: Copy {
    ghost number: { Self → ℕ };

    ghost about: { Self → ℕ };

    // The number of this kind of refusal.
    fn code(self) -> u32
        ensures { result ≡ number self };

    // The place that it is about.
    fn place(self) -> usize
        ensures { result ≡ about self };
}

// Any two numbers are a refusal: its code, and the place.
impl Refusal for (u32, usize) {
    ghost number = { λ r. r.0 };

    ghost about = { λ r. r.1 };

    fn code(self) -> u32 {
        self.0
    }

    fn place(self) -> usize {
        self.1
    }
}
