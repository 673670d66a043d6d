ghost use Rattle.std.specs.Prelude.{◌≡◌, ◌+◌, ◌<◌, ◌≤◌, true, [], ◌∷◌, ◌++◌, replicate, is_ok, IfOk, vec_len};
ghost use Rattle.lts.specs.Meaning.{most_states};
ghost use Rattle.words.specs.Words.{most_rows};
ghost use Rattle.charts.specs.Rows.{size, stay_states};
ghost use Rattle.charts.specs.Reading.{row_words, check_chart};
ghost use Rattle.charts.specs.Reader.{Behind, next_row};
ghost use Rattle.charts.specs.Tables.{entry_of, Held, Adds};

use crate::reader::Reader;
use crate::reading::RowRead;
use crate::tables::{RowEntry, Tables};
use lts::MOST_STATES;
use std::alloc::{AllocError, Global};
use words::{LONGEST, MOST_ROWS};

impl Tables {
    // Empty tables with room for every chart.
    pub(crate) fn with_room(heap: Global) -> Result<Tables, AllocError>
        ensures { IfOk result (λ t. (t.rows.items ≡ []) × (t.offers.items ≡ []) × (t.owners.items ≡ [])) }
    {
        Ok(Tables {
            rows: Vec::with_capacity(heap, MOST_ROWS as usize)?,
            offers: Vec::with_capacity(heap, LONGEST)?,
            owners: Vec::with_capacity(heap, MOST_STATES as usize)?,
        })
    }

    // Replaces what the tables hold by the chart whose words these are, which
    // were checked before.
    pub(crate) fn refill(&mut self, words: &[u32])
        requires { is_ok (check_chart words.now) ≡ true }
        ensures { IfOk (check_chart words.now) (Held self.new) }
    {
        let Ok(mut reader) = Reader::new(words) else {
            unreachable!();
        };
        self.rows.clear();
        self.offers.clear();
        self.owners.clear();
        for _ in 0..reader.rows {
            self.read_row(&mut reader);
        }
    }

    // Adds a row, without its offers, and its states. There is room for it.
    pub(crate) fn add_row(&mut self, row: RowRead)
        requires row { vec_len self.old.rows < most_rows }
        requires states { vec_len self.old.owners + stay_states row.stay ≤ most_states }
        ensures entries { self.new.rows.items ≡ self.old.rows.items ++ entry_of (vec_len self.old.owners) (vec_len self.old.offers) row ∷ [] }
        ensures owners { self.new.owners.items ≡ self.old.owners.items ++ replicate (stay_states row.stay) (vec_len self.old.rows) }
        ensures offers { self.new.offers ≡ self.old.offers }
    {
        let number = self.rows.len() as u32;
        let first = self.owners.len();
        let from = self.offers.len();
        self.rows.push_reserved(RowEntry {
            stay: row.stay,
            first: first as u32,
            from,
            offers: row.offers,
        });
        let states = first + row.stay.states() as usize;
        self.owners.resize(states, number).unwrap();
    }

    // Adds the row at which the reader stands, which was read before.
    fn read_row(&mut self, reader: &mut Reader)
        requires known { is_ok (next_row reader.old) ≡ true }
        requires rows { vec_len self.old.rows < most_rows }
        requires offers { vec_len self.old.offers ≤ reader.old.cursor.place }
        requires states { IfOk (next_row reader.old) (λ x. vec_len self.old.owners + size x ≤ most_states) }
        ensures row { IfOk (next_row reader.old) (λ x. Adds self.old self.new x × Behind reader.old reader.new (row_words x)) }
        ensures offers { vec_len self.new.offers ≤ reader.new.cursor.place }
    {
        let Ok(row) = reader.head() else {
            unreachable!();
        };
        self.add_row(row);
        for _ in 0..row.offers {
            let Ok(offer) = reader.offer() else {
                unreachable!();
            };
            self.offers.push_reserved(offer);
        }
    }
}
