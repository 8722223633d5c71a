//! Texts of weights.
ghost use Rattle.std.specs.Prelude.{◌≡◌, ◌*◌, ◌<◌, ◌^◌, IfSome};
ghost use Rattle.name_tree.specs.Weight.{weight_of, point_from, ComputesWeights};

use crate::weight::{Decimals, Whole};

/// Reads a weight as a tree has it: one to six digits, or none to six digits, a point and one or
/// more digits, of which those behind the sixth are dropped. The weight is in millionths, and less
/// than a million wholes. `None` where the text is no weight. It takes no memory.
pub fn read_weight(text: &[u8]) -> Option<u64>
    ensures weight { result ≡ weight_of text.now }
    ensures below { IfSome result (λ weight. weight < 10 ^ 12) }
{
    let mut whole = Whole::none();
    for (at, byte) in text.iter().enumerate() {
        if *byte == b'.' {
            return read_decimals(whole, &text[at + 1..]);
        }
        if !byte.is_ascii_digit() {
            return None;
        }
        whole = whole.with(*byte - b'0')?;
    }
    if whole.digits == 0 {
        return None;
    }
    Some(whole.millionths())
}

/// Reads what follows a weight's point.
fn read_decimals(whole: Whole, text: &[u8]) -> Option<u64>
    ensures weight { result ≡ point_from (whole.value * 1000000) text.now }
    ensures below { IfSome result (λ weight. weight < 10 ^ 12) }
{
    let [first, others @ ..] = text else {
        return None;
    };
    if !first.is_ascii_digit() {
        return None;
    }
    let mut decimals = Decimals::of(whole, *first - b'0');
    for byte in others {
        if !byte.is_ascii_digit() {
            return None;
        }
        decimals = decimals.with(*byte - b'0');
    }
    Some(decimals.millionths)
}

/// The weights that `specs/Weight.antt` computes from texts are those of the grammar, and no
/// others.
pub fn computed_weights_are_exact()
    ensures { ComputesWeights }
{}
