// Runs a table of layers over charts, one to a line of standard input, and prints in
// one line what each comes to.
//
// Before the `:` of a line stands which layer, with its numbers in decimal, behind it
// the words of the charts in hexadecimal, with `|` between two; `W*N` is the word W, N
// times. It comes to the whole listing, `;` between its lines, or with `count` before
// the layer to the first line. From `#` on a line is a comment.
#![tactic(auto)]

use anyhow::anyhow;
use case_words::Run;

mod over;

// The bytes of the file with these tokens, which are runs of words alone; in the other
// table they are also single bytes, and end at a `#`.
fn file_bytes(rt: &HostRuntime, tokens: &str) -> anyhow::Result<Vec<u8>> {
    let mut bytes = Vec::new(rt.alloc());
    for token in tokens.split_whitespace() {
        token.parse::<Run>()?.append_to(&mut bytes)?;
    }
    Ok(bytes)
}

// What the line comes to.
fn outcome(rt: &HostRuntime, line: &str) -> anyhow::Result<String> {
    let (line, _) = line.split_once('#').unwrap_or((line, ""));
    match line.split_once(':') {
        Some((layer, charts)) => over::outcome(rt, layer, charts),
        None => Err(anyhow!("the line names no layer")),
    }
}

fn run(rt: &HostRuntime) -> anyhow::Result<()> {
    for line in rt.lines(rt.alloc()) {
        rt.println(outcome(rt, line?.as_str())?.as_str())?;
    }
    Ok(())
}

fn main(rt: HostRuntime) -> anyhow::Result<()> {
    run(&rt)
}

#[cfg(test)]
mod tests {
    use case_words::TWO_ROWS;
    use charts::Chart;
    use layers::{Fence, Pair};
    use lts::{Move, OutOfRange, Source};
    use std::test::Fail;

    // The chart beside itself, 4 × 4 states, and the same behind a fence by the name 1.
    #[test]
    fn layers(rt: HostRuntime) -> Result<(), Fail> {
        let mut first = Chart::new(rt.alloc())?;
        let mut second = Chart::new(rt.alloc())?;
        assert!(rt; first.fill(&TWO_ROWS).is_ok() && second.fill(&TWO_ROWS).is_ok());
        let Ok(pair) = Pair::new(first, second) else {
            return Err(Fail::new("the Pair is refused"));
        };
        assert_eq!(rt; pair.states(), 16);
        assert!(rt; pair.move_count(3) == Ok(4) && pair.move_count(16).is_err());
        let step = Move {
            label: 0,
            target: 12,
        };
        assert_eq!(rt; pair.move_at(3, 3), Ok(step));
        assert_eq!(rt; pair.move_at(3, 4), Err(OutOfRange));
        assert_eq!(rt; pair.move_at(16, 0), Err(OutOfRange));
        assert_eq!(rt; OutOfRange.code(), 10);
        assert!(rt; pair.tick(0) == Ok(Some(5)) && pair.tick(3) == Ok(None));
        assert!(rt; pair.tick(16).is_err());
        let Ok(fence) = Fence::new(pair, 2) else {
            return Err(Fail::new("the Fence is refused"));
        };
        assert_eq!(rt; fence.move_at(3, 1), Ok(step));
        assert_eq!(rt; fence.move_at(3, 2), Err(OutOfRange));
        Ok(())
    }
}
