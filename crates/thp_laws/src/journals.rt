//! Laws of journal texts. The functions do nothing: each contract is the law.
ghost use Rattle.thp_laws.specs.ReadBack.{TextsAreReadBack, LongTextsAreReadBack, NothingElseChanges, WhatIsReadIsLegal, TextsAreCalledLegal, LongTextsAreCalledLegal};
ghost use Rattle.thp_laws.specs.SameTotals.{NoBlockShows, OneTextIsOfOneRun, OneTextHasOneTotal};

/// States that the text of 1 to 8 legal journals is read back as these journals except for their blocks, which are the least free
/// ones: each with its shape and its first line.
///
/// The callers are below 64, no node has more than 4,096 blocks, and the text has at most 16,777,216 bytes. Up to 65,536 journals
/// with callers below 65,536 and up to 16,777,216 blocks, whose text has any length, are read back by the check of journals of any
/// length. The journals read are legal, and a check of the text finds no illegal event.
pub fn journals_are_read_back()
    ensures read { TextsAreReadBack }
    ensures long_read { LongTextsAreReadBack }
    ensures same { NothingElseChanges }
    ensures legal { WhatIsReadIsLegal }
    ensures called_legal { TextsAreCalledLegal }
    ensures long_called_legal { LongTextsAreCalledLegal }
{}

/// States that a text does not depend on blocks: journals that are equal except for their blocks have the same text.
pub fn no_block_shows()
    ensures { NoBlockShows }
{}

/// States that two such lists of journals with the same text are equal except for their blocks, and have the same totals.
pub fn one_text_is_of_one_run()
    ensures same { OneTextIsOfOneRun }
    ensures totals { OneTextHasOneTotal }
{}
