// What the words of an agent's term say, one operator each.

// How long a delay is: so many seconds, or so many more or fewer than a
// variable says, whose own prefix stands above so many others.
#[derive(Clone, Copy, PartialEq, Debug)]
pub enum Delay {
    Constant(u32),
    Plus { between: u32, seconds: u32 },
    Less { between: u32, seconds: u32 },
}

#[derive(Clone, Copy, PartialEq, Debug)]
pub enum Operator {
    Nil,
    Prefix(u32),
    Delay(Delay),
    Sum,
    Compose,
    Restrict(u32),
    Relabel { from: u32, to: u32 },
    Refer(u32),
}
