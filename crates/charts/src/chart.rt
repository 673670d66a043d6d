ghost use Rattle.std.specs.Prelude.{◌≡◌, ◌≤◌, true};
ghost use Rattle.charts.specs.Rows.{within};
ghost use Rattle.charts.specs.Tables.{table_rows, entry_firsts, entry_counts, firsts, offer_counts, owners};

use crate::tables::Tables;

// A chart in its place. The room for every chart is reserved when the place is
// made, and then it holds the resting chart, one endless row without offers,
// until it is filled from a file.
#[derive(Drop)]
pub struct Chart {
    pub(crate) tables: Tables,
    // Whether a file was accepted. A place holds a chart in either case, so this is
    // no `Option` of one.
    pub(crate) opened: bool,
    // The tables agree with the rows that they hold: the first state of each
    // row, its number of offers, and the row of each state.
    ghost firsts: { entry_firsts tables ≡ firsts 0 (table_rows tables) },
    ghost counts: { entry_counts tables ≡ offer_counts (table_rows tables) },
    ghost owned: { tables.owners.items ≡ owners 0 (table_rows tables) },
    // The rows are a chart within the limits.
    ghost limits: { within (table_rows tables) ≡ true },
}

impl Chart {
    // Whether a file was accepted here.
    pub fn is_opened(&self) -> bool
        ensures { result ≡ self.now.opened }
    {
        self.opened
    }
}
