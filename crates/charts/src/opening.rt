ghost use Rattle.std.specs.Prelude.{◌≡◌, true, false, ◌↔◌, is_ok, IfOk, IfErr, Ok, Err, MatchResult, OnOk};
ghost use Rattle.charts.specs.Rows.{total};
ghost use Rattle.charts.specs.Reading.{check_chart};
ghost use Rattle.charts.specs.Encoding.{Encodes, ChartFile, ReadOneWay};
ghost use Rattle.charts.specs.Refusals.{RefusedFor};
ghost use Rattle.charts.specs.Charts.{rows_of, resting};

use crate::chart::Chart;
use crate::fault::ChartFault;
use crate::reading::{RowRead, check};
use crate::row::Stay;
use crate::tables::Tables;
use std::alloc::{AllocError, Global};

impl Chart {
    // A place with room for every chart.
    pub fn new(heap: Global) -> Result<Chart, AllocError>
        ensures { IfOk result (λ c. (rows_of c ≡ resting) × (c.opened ≡ false)) }
    {
        let mut tables = Tables::with_room(heap)?;
        tables.add_row(RowRead {
            stay: Stay::Endless,
            offers: 0,
        });
        Ok(Chart {
            tables,
            opened: false,
        })
    }

    // Fills the place with the chart whose words these are, and tells how many
    // states it has; or refuses them, and leaves the place as it was.
    pub fn fill(&mut self, words: &[u32]) -> Result<u32, ChartFault>
        ensures accepted { (is_ok result ≡ true) ↔ ChartFile words.now }
        ensures refused { IfErr result (λ f. RefusedFor words.now f) }
        ensures encodes { OnOk result (Encodes (rows_of self.new) words.now) }
        ensures place { MatchResult result (λ n. (check_chart words.now ≡ Ok (rows_of self.new)) × (n ≡ total (rows_of self.new)) × (self.new.opened ≡ true)) (λ f. (check_chart words.now ≡ Err f) × (self.new ≡ self.old)) }
    {
        let states = check(words)?;
        self.tables.refill(words);
        self.opened = true;
        Ok(states)
    }
}

// Nothing to run: no two charts have the same words.
pub fn words_are_read_one_way()
    ensures { ReadOneWay }
{}
