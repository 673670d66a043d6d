ghost use Rattle.std.specs.Prelude.{◌+◌, ◌≤◌, length};
ghost use Rattle.words.specs.Bytes.{longest};
ghost use Rattle.words.specs.Words.{most_rows};

use words::Cursor;

// Reads a chart from the words of its file, row by row. Its methods stand in reading.rt,
// since their clauses name definitions that speak of this struct, and a struct with a ghost
// field imports what its whole file does.
#[derive(Drop)]
pub(crate) struct Reader<'a> {
    pub(crate) cursor: Cursor<'a>,
    // How many rows the chart has: timeouts and offers lead to rows below.
    pub(crate) rows: u32,
    ghost short: { cursor.place + length cursor.rest.now ≤ longest },
    ghost few: { rows ≤ most_rows },
}
