//! What holds of all texts of prefixes and tables, and of all lookups. The functions do nothing:
//! their contracts are the laws.
ghost use Rattle.name_tree.specs.Laws.{HasOneValue};
ghost use Rattle.dtab_table.specs.TableGrammar.{PrefixText, DtabText};
ghost use Rattle.dtab_table.specs.Computed.{ComputesTables, table_of};
ghost use Rattle.dtab_table.specs.Laws.{PrefixesReadBack, TablesReadBack, AreLookedUpInTurn};
ghost use Rattle.dtab_table.specs.Laws.{OnlyMatchesRewrite, OnlyMatchesChange};

/// A text stands for at most one prefix, and for at most one table.
pub fn texts_have_one_value()
    ensures prefixes { HasOneValue PrefixText }
    ensures tables { HasOneValue DtabText }
{}

/// The canonical text of a prefix or a table stands for it.
pub fn canonical_texts_read_back()
    ensures prefixes { PrefixesReadBack }
    ensures tables { TablesReadBack }
{}

/// The values that `specs/Computed.antt` computes from texts are those of the grammar within the
/// limits, and no others.
pub fn computed_values_are_exact()
    ensures { ComputesTables table_of }
{}

/// Tables are looked up in turn, the last first: so the lookups in several tables, one after the
/// other, are that in the table of all their entries. An entry whose prefix doesn't match a path
/// has no part in what the path is rewritten to: a table and another, which has some entries in
/// place of others, rewrite it to the same where the prefix of none of these matches it.
pub fn only_matches_rewrite()
    ensures joined { AreLookedUpInTurn }
    ensures unmatched { OnlyMatchesRewrite }
    ensures changed { OnlyMatchesChange }
{}
