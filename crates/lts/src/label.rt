// Labels are numbers: τ is 0, the names are 1 to 63, the co-name of the name n
// is 64 + n, and the tick, a step of one second, is 128. 64 is no label. They are
// no enum, since the subject defines them so: files, questions and answers have the
// numbers, and what is asked of a label is asked of any number.

ghost use Rattle.std.specs.Prelude.{◌≡◌, if◌then◌else◌, Some, None};
ghost use Rattle.lts.specs.Labels.{label, visible, matching, partner as matching_label};

// The silent action, which nothing outside can see or prevent.
pub const TAU: u32 = 0;

// What lies between a name and its co-name.
pub const CO: u32 = 64;

// The step of one second.
pub const TICK: u32 = 128;

// Whether `a` is a label at all.
#[tactic(auto, unfolding(crate::specs::Labels::label))]
pub fn is_label(a: u32) -> bool
    ensures { result ≡ label a }
{
    a <= TICK && a != CO
}

// Whether `a` is a name or a co-name.
#[tactic(auto, unfolding(crate::specs::Labels::visible))]
pub fn is_visible(a: u32) -> bool
    ensures { result ≡ visible a }
{
    a > TAU && a < TICK && a != CO
}

// Whether `a` and `b` are a name and its own co-name, in either order.
#[tactic(auto, unfolding(crate::specs::Labels::visible, crate::specs::Labels::matching))]
pub fn matches(a: u32, b: u32) -> bool
    ensures { result ≡ matching a b }
{
    is_visible(a) && is_visible(b) && (a + CO == b || b + CO == a)
}

// The one label that matches `a`: a name's co-name, a co-name's name. Nothing
// matches τ or the tick.
#[tactic(auto, unfolding(crate::specs::Labels::partner))]
pub fn partner(a: u32) -> Option<u32>
    ensures { result ≡ (if visible a then Some (matching_label a) else None) }
{
    if !is_visible(a) {
        return None;
    }
    if a < CO { Some(a + CO) } else { Some(a - CO) }
}

#[cfg(test)]
mod tests {
    use super::*;

    // Both edges of each range, and what lies between.
    #[test]
    fn kinds_of_labels(rt: HostRuntime) {
        for a in [0, 1, 63, 65, 127, 128] {
            assert!(rt; is_label(a), "a label");
        }
        for a in [64, 129, 255, u32::MAX] {
            assert!(rt; !is_label(a) && !is_visible(a), "no label");
        }
        for a in [1, 63, 65, 127] {
            assert!(rt; is_visible(a), "visible");
        }
        assert!(rt; !is_visible(TAU) && !is_visible(TICK));
    }

    #[test]
    fn matching_labels(rt: HostRuntime) {
        for (a, b) in [(1, 65), (65, 1), (63, 127), (127, 63)] {
            assert!(rt; matches(a, b), "a name and its co-name");
            assert_eq!(rt; partner(a), Some(b));
        }
        for a in [TAU, CO, TICK, 129] {
            assert_eq!(rt; partner(a), None);
        }
        for (a, b) in [
            (0, 64),
            (64, 0),
            (64, 128),
            (128, 64),
            (1, 66),
            (1, 1),
            (127, 191),
        ] {
            assert!(rt; !matches(a, b), "no pair");
        }
    }
}
