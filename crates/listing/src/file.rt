ghost use Rattle.std.specs.Prelude.{◌≡◌, IfOk, string_bytes};
ghost use Rattle.charts.specs.Reading.{check_chart};
ghost use Rattle.listing.specs.Files.{checked_text, file_text};

use crate::text::{refusal_text, source_text};
use charts::Chart;
use std::alloc::{AllocError, Global};
use words::WordFile;

// The text of the file with these bytes: its states and their moves, or the
// refusal with its code and place.
pub fn file_text(heap: Global, bytes: &[u8]) -> Result<String, AllocError>
    ensures { IfOk result (λ t. string_bytes t ≡ file_text bytes.now) }
{
    let mut file = WordFile::new(heap)?;
    match file.fill(bytes) {
        Ok(_) => chart_text(heap, file.words()),
        Err(fault) => refusal_text(heap, fault),
    }
}

// The same for the words of a chart.
fn chart_text(heap: Global, words: &[u32]) -> Result<String, AllocError>
    ensures { IfOk result (λ t. string_bytes t ≡ checked_text (check_chart words.now)) }
{
    let mut chart = Chart::new(heap)?;
    match chart.fill(words) {
        Ok(_) => source_text(heap, &chart),
        Err(fault) => refusal_text(heap, fault),
    }
}
