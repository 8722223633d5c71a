//! What holds of all choices. The function does nothing: its contract is the laws.
ghost use Rattle.choose_core.specs.Laws.{EqualWeightsArePlain, EqualWeightsCompareLoads};

/// Where all weights are equal they do not matter: the pair of `n` addresses is `floor(w1 * n /
/// 2^64)` and `floor(w2 * (n - 1) / 2^64)`, the second raised by one where it is not below the
/// first, or twice the one address; and of two loads the first is taken where it is at most the
/// second.
pub fn equal_weights_do_not_matter()
    ensures pairs { EqualWeightsArePlain }
    ensures loads { EqualWeightsCompareLoads }
{}
