//! What holds of all lines and numbers. The functions do nothing: their contracts are the laws.
ghost use Rattle.text_parts.specs.Exact.{ComputesLines, ReadsNumbers};

/// The lines that `specs/Lines.antt` computes from a text are those of the grammar beside them, and
/// no others.
pub fn lines_are_exact()
    ensures { ComputesLines }
{}

/// A text is read as a number of 64 bits exactly where it is the text that is written for that
/// number. So each number has one text.
pub fn numbers_are_exact()
    ensures { ReadsNumbers }
{}
