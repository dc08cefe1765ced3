//! The laws of images: what is written reads back.
#![tactic(auto)]

ghost use Rattle.rc_model.specs.Handed.HandedLaws.{HandedReadsBack, ReadsProper, ReadsScripts};
ghost use Rattle.rc_model.specs.Handed.TreeLaws.{HasSpelling, OneSpelling, OneTree, ReadsSpellings, TreesReadBack};
ghost use Rattle.rc_model.specs.Handed.WordsLaws.{HasWords, OneListOfWords, OneTreeOfWords, PiecesByRule, ReadsWords};
ghost use Rattle.rc_model.specs.Handed.WordsLaws.{WordsByRule, WordsReadBack};
ghost use Rattle.rc_model.specs.Handed.Denoted.{ReadsWhatIsDenoted};
ghost use Rattle.law_image.specs.States.{BeginsProper, EndsStayProper, FunctionsStayProper, VariablesStayProper};

/// A tree has no spelling but its image, and has that one if its numbers are not too great; a text spells at most one
/// tree.
pub fn trees_have_one_spelling()
    ensures { OneSpelling × HasSpelling × OneTree }
{}

/// A text is read as a tree exactly if it spells that tree and the tree is well formed; so the image of a tree reads
/// back.
pub fn spellings_are_read()
    ensures { ReadsSpellings × TreesReadBack }
{}

/// The pieces and words computed of a text are those of the rule; there are none if there would be too many pieces.
pub fn pieces_are_longest()
    ensures { PiecesByRule × WordsByRule }
{}

/// A tree has no list of words but that of its image, if there is one; words spell at most one tree.
pub fn trees_have_one_list_of_words()
    ensures { OneListOfWords × HasWords × OneTreeOfWords }
{}

/// Words are read as a tree exactly if the first of them spell it and it is well formed; so what is written reads back,
/// whatever follows.
pub fn words_are_read()
    ensures { ReadsWords × WordsReadBack }
{}

/// The arguments and entries that a shell hands over read back as the tree and the state of the subshell.
pub fn handed_is_read()
    ensures { HandedReadsBack }
{}

/// The state that is read from arguments and entries is the one that they denote.
pub fn denoted_is_read()
    ensures { ReadsWhatIsDenoted }
{}

/// Whatever is read, the tree is proper and so is the state.
pub fn proper_is_read()
    ensures { ReadsProper × ReadsScripts }
{}

/// The empty state is proper, and the operations on states keep them so.
pub fn states_stay_proper()
    ensures begins { BeginsProper }
    ensures variables { VariablesStayProper }
    ensures functions { FunctionsStayProper }
    ensures ends { EndsStayProper }
{}
