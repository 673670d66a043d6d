ghost use Rattle.std.specs.Prelude.{◌≡◌, ◌++◌, IfOk, string_bytes, OnOk};
ghost use Rattle.listing.specs.Text.{move_text, line_text, source_text, refusal_text};

use lts::{Move, Refusal, Source, State};
use std::alloc::{AllocError, Global};

// The text of a source: how many states it has, and then each state's line.
pub fn source_text<S: Source>(heap: Global, source: &S) -> Result<String, AllocError>
    ensures { IfOk result (λ t. string_bytes t ≡ source_text (S.meaning source.now)) }
{
    let mut text = String::new(heap);
    add_source(&mut text, source)?;
    Ok(text)
}

// The line of a refusal: its code, and the place that it is about.
pub fn refusal_text<F: Refusal>(heap: Global, refusal: F) -> Result<String, AllocError>
    ensures { IfOk result (λ t. string_bytes t ≡ refusal_text (F.number refusal) (F.about refusal)) }
{
    format!(in heap; "refused {} {}\n", refusal.code(), refusal.place())
}

// Appends the text of the source.
#[tactic(auto, using(std::proofs::lemmas::Grind::common_steps), unfolding(crate::specs::Text::source_text, crate::specs::Text::lines))]
fn add_source<S: Source>(text: &mut String, source: &S) -> Result<(), AllocError>
    ensures { OnOk result (string_bytes text.new ≡ string_bytes text.old ++ source_text (S.meaning source.now)) }
{
    let count = source.states();
    writeln!(text, "states {count}")?;
    // A source is asked by numbers, so the loop goes over them.
    for s in 0..count {
        let state = State::of(source, s).unwrap();
        add_line(text, &state)?;
    }
    Ok(())
}

// Appends the line of a state.
fn add_line<S: Source>(text: &mut String, state: &State<'_, S>) -> Result<(), AllocError>
    ensures { OnOk result (string_bytes text.new ≡ string_bytes text.old ++ line_text state.now.number ((S.meaning state.now.source.now).moves state.now.number)) }
{
    write!(text, "{}", state.number())?;
    for step in state.moves() {
        add_move(text, step)?;
    }
    writeln!(text)
}

// Appends a move. No `Display` of `Move`, since the text is the listing's own.
fn add_move(text: &mut String, step: Move<u32>) -> Result<(), AllocError>
    ensures { OnOk result (string_bytes text.new ≡ string_bytes text.old ++ move_text step) }
{
    let Move { label, target } = step;
    write!(text, " {label} {target}")
}
