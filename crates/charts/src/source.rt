ghost use Rattle.std.specs.Prelude.{◌≡◌, ◌<◌, ◌≤◌, [], ◌∷◌, length, take, drop, MatchResult};
ghost use Rattle.lts.specs.Answers.{tick_of};
ghost use Rattle.charts.specs.Rows.{total, first as first_of, second_of};
ghost use Rattle.charts.specs.Meaning.{arrival as arrival_of, offer_move, closing_move};
ghost use Rattle.charts.specs.Charts.{rows_of, meaning_of};
ghost use Rattle.charts.specs.Standing.{state_row, closed_by};
ghost use Rattle.charts.specs.Laws.{chart_lawful};

use crate::chart::Chart;
use crate::row::{Offer, Stay, seconds};
use crate::tables::RowEntry;
use lts::label::{TAU, TICK};
use lts::{Move, OutOfRange, Source};

// A state of a chart, with its row's entry in the tables, and how many seconds
// of the row have passed. The slice of the row's offers is made only where it is
// asked for, since a tick needs none.
#[derive(Drop)]
struct Standing<'a> {
    chart: &'a Chart,
    state: u32,
    second: u32,
    row: RowEntry,
    ghost inside: { state < total (rows_of chart.now) },
    ghost since: { second ≡ second_of (rows_of chart.now) state },
    ghost stays: { row.stay ≡ (state_row chart.now state).stay },
    ghost counted: { row.offers ≡ length (state_row chart.now state).offers },
    ghost offered: { take row.offers (drop row.from chart.now.tables.offers.items) ≡ (state_row chart.now state).offers },
}

// How a list of moves ends: with a tick, or with the timeout that leaves a row
// whose dwell is over. Each holds the state that it leads to.
enum Closing {
    Tick(u32),
    Timeout(u32),
}

impl Chart {
    // The state with that number.
    #[tactic(auto, using(crate::proofs::Answering::entries))]
    fn standing(&self, state: u32) -> Result<Standing<'_>, OutOfRange>
        ensures { MatchResult result (λ t. (t.chart.now ≡ self.now) × (t.state ≡ state)) (λ _. total (rows_of self.now) ≤ state) }
    {
        let Some(&owner) = self.tables.owners.get(state as usize) else {
            return Err(OutOfRange);
        };
        let row = self.tables.rows[owner as usize];
        Ok(Standing {
            chart: self,
            state,
            second: state - row.first,
            row,
        })
    }

    // The first state of the row with that number. That it is a row's is asked for here and
    // in the two functions below: a type of row numbers would hold its chart, for one line
    // each.
    #[tactic(auto, using(crate::proofs::Answering::entries))]
    fn first(&self, row: u32) -> u32
        requires { row < length (rows_of self.now) }
        ensures { result ≡ first_of (rows_of self.now) row }
    {
        self.tables.rows[row as usize].first
    }

    // The state at which an offer arrives.
    #[tactic(auto, unfolding(crate::specs::Meaning::arrival))]
    fn arrival(&self, offer: Offer) -> u32
        requires { offer.row < length (rows_of self.now) }
        ensures { result ≡ arrival_of (rows_of self.now) offer }
    {
        self.first(offer.row)
    }

    // The move to which an offer comes.
    fn offer_move(&self, offer: Offer) -> Move<u32>
        requires { offer.row < length (rows_of self.now) }
        ensures { result ≡ offer_move (rows_of self.now) offer }
    {
        Move {
            label: offer.label,
            target: self.arrival(offer),
        }
    }
}

impl<'a> Standing<'a> {
    // The offers of its row.
    #[tactic(auto, using(crate::proofs::Answering::part))]
    fn offers(&self) -> &'a [Offer]
        ensures { result.now ≡ (state_row self.now.chart.now self.now.state).offers }
    {
        let RowEntry { from, offers, .. } = self.row;
        // The entry of a row without offers may name any place.
        if offers == 0 {
            return &[];
        }
        &self.chart.tables.offers[from..from + offers]
    }

    // What comes behind the offers. Inlined always, as `Closing::tick` is: otherwise a
    // question for a tick builds the enum and takes it apart, in up to twice the time.
    #[tactic(auto, using(crate::proofs::Answering::answers), unfolding(crate::specs::Meaning::closing_move))]
    #[inline(always)]
    fn closing(&self) -> Closing
        ensures { closed_by result ≡ closing_move (rows_of self.now.chart.now) self.now.row.stay self.now.state self.now.second }
    {
        match self.row.stay {
            Stay::Finite { tenths, timeout } => {
                if self.second < seconds(tenths) {
                    Closing::Tick(self.state + 1)
                } else {
                    Closing::Timeout(self.chart.first(timeout))
                }
            }
            Stay::Endless => Closing::Tick(self.state),
        }
    }
}

impl Closing {
    // It as a move.
    fn step(self) -> Move<u32>
        ensures { result ≡ closed_by self }
    {
        match self {
            Closing::Tick(target) => Move {
                label: TICK,
                target,
            },
            Closing::Timeout(target) => Move { label: TAU, target },
        }
    }

    // Where it leads if it is a tick.
    #[tactic(auto, unfolding(lts::specs::Answers::tick_of))]
    #[inline(always)]
    fn tick(self) -> Option<u32>
        ensures { result ≡ tick_of (closed_by self ∷ []) }
    {
        match self {
            Closing::Tick(target) => Some(target),
            Closing::Timeout(_) => None,
        }
    }
}

impl Source for Chart {
    ghost meaning = { meaning_of };

    ghost lawful = { λ x. chart_lawful (rows_of x) x.limits };

    #[tactic(auto, using(crate::proofs::Answering::entries))]
    fn states(&self) -> u32 {
        self.tables.owners.len() as u32
    }

    #[tactic(auto, using(crate::proofs::Answering::answers))]
    fn move_count(&self, s: u32) -> Result<u32, OutOfRange> {
        let state = self.standing(s)?;
        Ok(state.offers().len() as u32 + 1)
    }

    #[tactic(auto, using(crate::proofs::Answering::answers))]
    fn move_at(&self, s: u32, k: u32) -> Result<Move<u32>, OutOfRange> {
        let state = self.standing(s)?;
        let offers = state.offers();
        match offers.get(k as usize) {
            Some(offer) => Ok(self.offer_move(*offer)),
            None if k as usize == offers.len() => Ok(state.closing().step()),
            None => Err(OutOfRange),
        }
    }

    #[tactic(auto, using(crate::proofs::Answering::answers))]
    fn tick(&self, s: u32) -> Result<Option<u32>, OutOfRange> {
        let state = self.standing(s)?;
        Ok(state.closing().tick())
    }
}
