//! What holds of all lines of scripts. The function does nothing: its contract is the law.
ghost use Rattle.script.specs.Exact.{ComputesLines};

/// The lines that `specs/Line.antt` computes are those of the grammar in `specs/Grammar.antt`, and
/// no others.
pub fn computed_lines_are_exact()
    ensures { ComputesLines }
{
    name_tree::computed_values_are_exact();
    name_tree::computed_weights_are_exact();
    dtab_table::computed_values_are_exact();
}
