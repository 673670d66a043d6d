ghost use Rattle.std.specs.Prelude.{◌≤◌, vec_capacity};
ghost use Rattle.lts.specs.Meaning.{most_states};
ghost use Rattle.words.specs.Words.{most_rows};
ghost use Rattle.words.specs.Bytes.{longest};

use crate::row::{Offer, Stay};

// One row: its first state, and where its offers stand among all offers and how many they
// are, which is asked for more often than where they end.
#[derive(Clone, Copy)]
pub(crate) struct RowEntry {
    pub(crate) stay: Stay,
    pub(crate) first: u32,
    pub(crate) from: usize,
    pub(crate) offers: usize,
}

// The rows of a chart, all their offers, and for each state the row that it
// stands in. The room for every chart is reserved once, so that filling needs no
// memory: hence one list of all offers, and not one for each row. A state's row is
// looked up, so that no question searches. The methods stand in filling.rt, as those of
// `Reader` do in reading.rt and for the same cause.
#[derive(Drop)]
pub(crate) struct Tables {
    pub(crate) rows: Vec<RowEntry>,
    pub(crate) offers: Vec<Offer>,
    pub(crate) owners: Vec<u32>,
    ghost row_room: { most_rows ≤ vec_capacity rows },
    ghost offer_room: { longest ≤ vec_capacity offers },
    ghost owner_room: { most_states ≤ vec_capacity owners },
}
