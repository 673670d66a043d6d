ghost use Rattle.std.specs.Prelude.{◌≡◌, ◌+◌, ◌≤◌, IfOk, MatchResult, Err};
ghost use Rattle.words.specs.Reading.{then, mapped};
ghost use Rattle.lts.specs.Meaning.{most_states};
ghost use Rattle.charts.specs.Rows.{last_second, stay_states, stay_words, total};
ghost use Rattle.charts.specs.Reading.{read_stay, read_chart, check_chart};
ghost use Rattle.charts.specs.Reader.{Reads, one, read_target, read_offer, read_words, head_words, read_head_of, read_plain, RowBounds, Begun, counted};

use crate::fault::ChartFault;
use crate::reader::Reader;
use crate::row::{Offer, Stay};
use lts::label::TAU;
use lts::{MOST_STATES, is_visible};
use words::{Cursor, LONGEST, RowHead, WordFault};

// A row by its plain numbers: how long it is stayed in, and how many offers it
// has.
#[derive(Clone, Copy)]
pub(crate) struct RowRead {
    pub(crate) stay: Stay,
    pub(crate) offers: usize,
}

impl<'a> Reader<'a> {
    // At the first row, behind the number of rows.
    pub(crate) fn new(words: &'a [u32]) -> Result<Reader<'a>, WordFault>
        ensures { MatchResult result (Begun words.now) (λ f. read_chart words.now ≡ Err f) }
    {
        if words.len() > LONGEST {
            return Err(WordFault::Length(LONGEST));
        }
        let mut cursor = Cursor::new(words);
        let rows = cursor.read()?.rows()?;
        Ok(Reader { cursor, rows })
    }

    // A timeout: the label τ, and a row of the chart.
    fn timeout(&mut self) -> Result<u32, WordFault>
        ensures { Reads read_target one self.old self.new result }
    {
        let word = self.cursor.read()?;
        let arrow = word.arrow()?;
        if arrow.label != TAU || arrow.target >= self.rows {
            return Err(WordFault::Range(word.place));
        }
        Ok(arrow.target)
    }

    // An offer: a visible label, and a row of the chart. It is as the timeout but for the
    // label that is asked for and what is made of it, which is most of either.
    pub(crate) fn offer(&mut self) -> Result<Offer, WordFault>
        ensures { Reads read_offer one self.old self.new result }
    {
        let word = self.cursor.read()?;
        let arrow = word.arrow()?;
        if !is_visible(arrow.label) || arrow.target >= self.rows {
            return Err(WordFault::Range(word.place));
        }
        Ok(Offer {
            label: arrow.label,
            row: arrow.target,
        })
    }

    // How long a row is stayed in: D and its timeout, or E.
    fn stay(&mut self) -> Result<Stay, WordFault>
        ensures { Reads read_stay stay_words self.old self.new result }
    {
        match self.cursor.read()?.row()? {
            RowHead::Endless => Ok(Stay::Endless),
            RowHead::Dwell(tenths) => {
                let timeout = self.timeout()?;
                Ok(Stay::Finite { tenths, timeout })
            }
        }
    }

    // A row as far as its offers, which follow.
    pub(crate) fn head(&mut self) -> Result<RowRead, WordFault>
        ensures { Reads read_head_of head_words self.old self.new result }
    {
        let stay = self.stay()?;
        let offers = self.cursor.read()?.offers()?;
        Ok(RowRead {
            stay,
            offers: offers as usize,
        })
    }

    // A row with its offers. No row has more states than a source may have.
    fn row(&mut self) -> Result<RowRead, WordFault>
        ensures read { Reads read_plain read_words self.old self.new result }
        ensures bounds { IfOk result (RowBounds self.old.cursor.rest.now) }
    {
        let row = self.head()?;
        for _ in 0..row.offers {
            self.offer()?;
        }
        Ok(row)
    }
}

// The states of the rows so far and those of the row at `place`, or the fault
// that they are too many, of the first row with which they are. No row by itself has more
// than a source may have, so the sum cannot wrap.
fn add_states(before: Result<u32, ChartFault>, stay: Stay, place: usize) -> Result<u32, ChartFault>
    requires states { IfOk before (λ n. n ≤ most_states) }
    requires short { last_second stay ≤ 4095 }
    ensures { result ≡ then before (λ n. counted (n + stay_states stay) place) }
{
    let states = before? + stay.states();
    if states > MOST_STATES {
        return Err(ChartFault::TooManyStates(place));
    }
    Ok(states)
}

// How many states the chart has whose words these are. A fault of a word comes
// before that of too many states, wherever it stands.
pub(crate) fn check(words: &[u32]) -> Result<u32, ChartFault>
    ensures { result ≡ mapped total (check_chart words.now) }
{
    let mut reader = Reader::new(words)?;
    let mut states = Ok(0);
    for _ in 0..reader.rows {
        let place = reader.cursor.place();
        let row = reader.row()?;
        states = add_states(states, row.stay, place);
    }
    reader.cursor.end()?;
    states
}
