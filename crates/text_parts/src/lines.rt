//! The lines of a text.
ghost use Rattle.std.specs.Prelude.{◌≡◌, ◌≤◌, ◌<◌, ◌∷◌, ℕ, length, drop, slice_range};
ghost use Rattle.std.specs.Prelude.{slice_index};
ghost use Rattle.text_parts.specs.Lines.{lines_of, IsNextLine};

/// A line of a text.
#[derive(Clone, Copy, Debug, PartialEq, Eq)]
pub struct Cut {
    /// Where the line ends, without its line feed and a CR before that.
    pub stop: usize,
    /// Where the next line begins.
    pub next: usize,
}

/// The line of a text that begins at a place. It looks at the bytes of the line alone.
pub fn cut_line(text: &[u8], at: usize) -> Cut
    requires { at < length text.now }
    ensures line { lines_of (drop at text.now)
        ≡ slice_range text.now at result.stop ∷ lines_of (drop result.next text.now) }
    ensures stop { (at ≤ result.stop) × (result.stop ≤ length text.now) }
    ensures next { (at < result.next) × (result.next ≤ length text.now) }
    ensures feed { IsNextLine text.now at result.next }
{
    let end = feed_place(text, at);
    if end == text.len() {
        return Cut {
            stop: end,
            next: end,
        };
    }
    let stop = if end > at && text[end - 1] == b'\r' {
        end - 1
    } else {
        end
    };
    Cut {
        stop,
        next: end + 1,
    }
}

/// Where the line that begins at a place has its line feed, or where the text ends.
fn feed_place(text: &[u8], at: usize) -> usize
    requires { at ≤ length text.now }
    ensures behind { at ≤ result }
    ensures within { result ≤ length text.now }
    ensures feed { result < length text.now → slice_index text.now result ≡ 10 }
    ensures none { (k : ℕ) → at ≤ k → k < result → slice_index text.now k ≡ 10 → ⊥ }
{
    let mut end = at;
    while end < text.len() && text[end] != b'\n' {
        end += 1;
    }
    end
}
