//! What holds of all texts of paths and trees. The functions do nothing: their contracts are the
//! laws.
ghost use Rattle.name_tree.specs.Grammar.{PathText, TreeText};
ghost use Rattle.name_tree.specs.Computed.{Computes, path_of, tree_of};
ghost use Rattle.name_tree.specs.Laws.{HasOneValue, PathsReadBack, TreesReadBack};

/// A text stands for at most one path, and for at most one tree.
pub fn texts_have_one_value()
    ensures paths { HasOneValue PathText }
    ensures trees { HasOneValue TreeText }
{}

/// The canonical text of a path or a tree stands for it.
pub fn canonical_texts_read_back()
    ensures paths { PathsReadBack }
    ensures trees { TreesReadBack }
{}

/// The values that `specs/Computed.antt` computes from texts are those of the grammar within the
/// limits, and no others.
pub fn computed_values_are_exact()
    ensures paths { Computes path_of PathText }
    ensures trees { Computes tree_of TreeText }
{}
