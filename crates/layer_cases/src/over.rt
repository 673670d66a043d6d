// The lines of the table that are layers over charts.

use crate::file_bytes;
use anyhow::anyhow;
use charts::Chart;
use layers::{Fence, Pair, Rename};
use listing::{refusal_text, source_text};
use lts::{Refusal, Source};
use words::WordFile;

// A layer over the first chart of a line, or over both, by the numbers of the line.
#[derive(Clone, Copy)]
enum Layer {
    // A fence by the names whose bits these are.
    Fence(u64),
    Rename { from: u64, to: u64 },
    Pair,
    // A fence over the Pair of the first chart, renamed, and the second.
    Pile { bits: u64, from: u64, to: u64 },
}

impl Layer {
    // No `FromStr`: the numbers and the first chart are read before the kind, so that a line
    // with two mistakes names the same one as ever.
    fn new(kind: &str, [a, b, c]: [u64; 3]) -> anyhow::Result<Layer> {
        match kind {
            "fence" => Ok(Layer::Fence(a)),
            "rename" => Ok(Layer::Rename { from: a, to: b }),
            "pair" => Ok(Layer::Pair),
            "pile" => Ok(Layer::Pile {
                bits: a,
                from: b,
                to: c,
            }),
            _ => Err(anyhow!("no such layer")),
        }
    }
}

// A number of a layer, 0 where there is none.
fn number(token: Option<&str>) -> anyhow::Result<u64> {
    Ok(token.unwrap_or("0").parse()?)
}

// The chart with the words of these tokens.
fn chart(rt: &HostRuntime, tokens: &str) -> anyhow::Result<Chart> {
    let bytes = file_bytes(rt, tokens)?;
    let mut file = WordFile::new(rt.alloc())?;
    let mut chart = Chart::new(rt.alloc())?;
    if file.fill(bytes.as_slice()).is_err() || chart.fill(file.words()).is_err() {
        return Err(anyhow!("the words are no chart"));
    }
    Ok(chart)
}

// The listing of what was made, or why it was refused.
fn shown<S: Source + Drop, F: Refusal>(
    rt: &HostRuntime,
    made: Result<S, F>,
) -> anyhow::Result<String> {
    match made {
        Ok(source) => Ok(source_text(rt.alloc(), &source)?),
        Err(fault) => Ok(refusal_text(rt.alloc(), fault)?),
    }
}

// The listing of the layer, or its refusal.
fn listing(rt: &HostRuntime, layer: &str, charts: &str) -> anyhow::Result<String> {
    let mut tokens = layer.split_whitespace();
    let kind = tokens.next().unwrap_or("");
    let numbers = [
        number(tokens.next())?,
        number(tokens.next())?,
        number(tokens.next())?,
    ];
    let (first, second) = charts.split_once('|').unwrap_or((charts, ""));
    let first = chart(rt, first)?;
    match Layer::new(kind, numbers)? {
        Layer::Fence(bits) => shown(rt, Fence::new(first, bits)),
        Layer::Rename { from, to } => {
            shown(rt, Rename::new(first, from.try_into()?, to.try_into()?))
        }
        Layer::Pair => shown(rt, Pair::new(first, chart(rt, second)?)),
        Layer::Pile { bits, from, to } => {
            let second = chart(rt, second)?;
            // The refusals are of three types; `?` would need one more, to join them.
            match Rename::new(first, from.try_into()?, to.try_into()?) {
                Ok(renamed) => match Pair::new(renamed, second) {
                    Ok(pair) => shown(rt, Fence::new(pair, bits)),
                    Err(fault) => Ok(refusal_text(rt.alloc(), fault)?),
                },
                Err(fault) => Ok(refusal_text(rt.alloc(), fault)?),
            }
        }
    }
}

// The listing in one line, or with `count` before the layer only its first line.
pub(crate) fn outcome(rt: &HostRuntime, layer: &str, charts: &str) -> anyhow::Result<String> {
    if let Some(layer) = layer.strip_prefix("count ") {
        let text = listing(rt, layer, charts)?;
        let first = text.as_str().lines().next().unwrap_or("");
        return Ok(String::from_str(rt.alloc(), first)?);
    }
    let text = listing(rt, layer, charts)?;
    let lines = text.as_str().lines().collect::<Vec<&str>>(rt.alloc())?;
    Ok(lines.join(rt.alloc(), "; ")?)
}
