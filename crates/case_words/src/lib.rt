// What the tables of cases share: the words of a file as text, and a chart for tests.
#![tactic(auto)]

pub mod run;

pub use run::Run;

// A chart whose row 0 dwells 2 seconds and offers 1, and whose row 1 is endless and
// offers 65 and 2.
pub const TWO_ROWS: [u32; 9] = [
    0xC000_0002,
    0xD000_0014,
    0xB000_0001,
    0xF000_0001,
    0xB010_0001,
    0xE000_0000,
    0xF000_0002,
    0xB410_0000,
    0xB020_0001,
];
