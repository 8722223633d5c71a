//! Prefixes that cover others.
ghost use Rattle.std.specs.Prelude.{◌≡◌};
ghost use Rattle.dtab_table.specs.Pattern.{pattern_of};
ghost use Rattle.dtab_check.specs.Hidden.{covers, pattern_covers};

use dtab_table::{Prefix, PrefixLabel};

/// Whether a prefix covers another: it has no more labels, and each is `*` or the other's label at
/// its place.
///
/// It compares the last label first: the prefixes of a table mostly begin alike, and end apart.
pub(crate) fn is_cover(prefix: &Prefix, other: &Prefix) -> bool
    ensures { result ≡ covers prefix.now other.now }
{
    let labels = prefix.labels();
    let others = other.labels();
    if others.len() < labels.len() {
        return false;
    }
    let mut at = labels.len();
    while at > 0 {
        at -= 1;
        if !stands_for(&labels[at], &others[at]) {
            return false;
        }
    }
    true
}

/// Whether a label stands for all that another stands for.
fn stands_for(label: &PrefixLabel, other: &PrefixLabel) -> bool
    ensures { result ≡ pattern_covers (pattern_of label.now) (pattern_of other.now) }
{
    match (label, other) {
        (PrefixLabel::Star, _) => true,
        (PrefixLabel::Label(_), PrefixLabel::Star) => false,
        (PrefixLabel::Label(own), PrefixLabel::Label(label)) => own.as_slice() == label.as_slice(),
    }
}
