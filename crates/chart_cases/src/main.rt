// Runs a table of chart files, one to a line of standard input, and prints the
// first line of each one's listing: how many states, or the refusal.
//
// A line has the words of a file in hexadecimal. `W*N` is the word W, N times,
// `+N` is N bytes behind the words, and from `#` on the line is a comment.
#![tactic(auto)]

use case_words::Run;
use listing::file_text;

// Adds what one token of a line stands for.
fn add_token(bytes: &mut Vec<u8>, token: &str) -> anyhow::Result<()> {
    match token.strip_prefix('+') {
        Some(count) => {
            let count = count.parse::<u32>()?;
            // Word by word, since `resize` of them all takes the very room, which the
            // next token then doubles.
            let words = Run {
                word: 0,
                count: count / 4,
            };
            words.append_to(bytes)?;
            bytes.resize(bytes.len() + count as usize % 4, 0)?;
        }
        None => token.parse::<Run>()?.append_to(bytes)?,
    }
    Ok(())
}

// The bytes of the file that the line stands for.
fn file_bytes(rt: &HostRuntime, line: &str) -> anyhow::Result<Vec<u8>> {
    let mut bytes = Vec::new(rt.alloc());
    for token in line
        .split_whitespace()
        .take_while(|token| !token.starts_with('#'))
    {
        add_token(&mut bytes, token)?;
    }
    Ok(bytes)
}

fn run(rt: &HostRuntime) -> anyhow::Result<()> {
    for line in rt.lines(rt.alloc()) {
        let bytes = file_bytes(rt, line?.as_str())?;
        let text = file_text(rt.alloc(), bytes.as_slice())?;
        rt.println(text.as_str().lines().next().unwrap_or(""))?;
    }
    Ok(())
}

fn main(rt: HostRuntime) -> anyhow::Result<()> {
    run(&rt)
}

#[cfg(test)]
mod tests {
    use case_words::TWO_ROWS;
    use charts::Chart;
    use listing::refusal_text;
    use lts::{Move, OutOfRange, Source};
    use std::test::Fail;

    #[test]
    fn questions(rt: HostRuntime) -> Result<(), Fail> {
        let mut chart = Chart::new(rt.alloc())?;
        assert!(rt; chart.fill(&TWO_ROWS).is_ok());
        assert_eq!(rt; chart.states(), 4);
        assert_eq!(rt; chart.move_count(3), Ok(3));
        assert!(rt; chart.move_count(4).is_err());
        assert_eq!(rt;
            chart.move_at(2, 1),
            Ok(Move {
                label: 0,
                target: 3
            })
        );
        assert_eq!(rt; chart.move_at(2, 2), Err(OutOfRange));
        assert_eq!(rt;
            chart.move_at(3, 2),
            Ok(Move {
                label: 128,
                target: 3
            })
        );
        assert_eq!(rt; chart.move_at(4, 0), Err(OutOfRange));
        assert_eq!(rt; OutOfRange.code(), 10);
        assert_eq!(rt; chart.tick(1), Ok(Some(2)));
        assert_eq!(rt; chart.tick(2), Ok(None));
        assert!(rt; chart.tick(4).is_err());
        Ok(())
    }

    // Any two numbers are listed as a refusal, as those of one that is no `Refusal`.
    #[test]
    fn refusals(rt: HostRuntime) -> Result<(), Fail> {
        let text = refusal_text(rt.alloc(), (OutOfRange.code(), 4_096))?;
        assert!(rt; text.as_str() == "refused 10 4096\n");
        Ok(())
    }

    #[test]
    fn place(rt: HostRuntime) -> Result<(), Fail> {
        let mut chart = Chart::new(rt.alloc())?;
        assert!(rt; !chart.is_opened() && chart.states() == 1);
        assert!(rt; chart.fill(&TWO_ROWS[..8]).is_err());
        assert!(rt; !chart.is_opened());
        assert!(rt; chart.fill(&TWO_ROWS).is_ok());
        assert!(rt; chart.fill(&TWO_ROWS[..8]).is_err());
        assert!(rt; chart.is_opened() && chart.states() == 4);
        assert!(rt; chart.fill(&[0xC000_0001, 0xE000_0000, 0xF000_0000]).is_ok());
        assert_eq!(rt; chart.states(), 1);
        Ok(())
    }
}
