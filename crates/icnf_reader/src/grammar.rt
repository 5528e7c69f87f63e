//! What a reader gives turn by turn is what the grammar over the whole list of words says. These functions do nothing: their
//! contracts are the laws that tie the two, in both directions.
ghost use Rattle.icnf_reader.specs.Laws.{TextIsSaid, TextIsGiven, CutIsSaid, CutIsGiven, TextHasHeader};

/// Of each text the grammar says what a reader gives: the statements before the first fault, and how the text ends.
pub fn law_text_is_said()
    ensures { TextIsSaid }
{}

/// What the grammar says of a text is what a reader gives. So it says but one thing of each text, and no text is both whole
/// and bad.
pub fn law_text_is_given()
    ensures { TextIsGiven }
{}

/// Where reading was cut off, the statements that were given are exactly those that ended on the lines before, and nothing is
/// wrong on these lines.
pub fn law_cut_is_said()
    ensures { CutIsSaid }
{}

/// Where nothing is wrong on the lines before the place where reading was cut off, the statements that ended on them are
/// exactly those that a reader gives.
pub fn law_cut_is_given()
    ensures { CutIsGiven }
{}

/// The header is given first and only there, and behind it nothing but statements is given.
pub fn text_has_header()
    ensures { TextHasHeader }
{}
