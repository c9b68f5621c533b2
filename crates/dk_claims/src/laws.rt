//! What the definitions come to, in the words of the format.
ghost use Rattle.dk_claims.specs.Laws.{ClaimsAreOfSections, HeadingsPart, LastCountIsTakenOff, LinesBelowAHeadingClaim, OtherTextsStay, WholeFileHasItsClaims};

/// A last count is taken off a text, and it alone.
pub fn last_count_is_taken_off()
    ensures { LastCountIsTakenOff }
{}

/// A text without a count at its end stays as it is.
pub fn other_texts_stay()
    ensures { OtherTextsStay }
{}

/// The line behind one of `=` is a heading, whatever it says, and parts what stands above from what stands below.
pub fn headings_part()
    ensures { HeadingsPart }
{}

/// Below a heading, up to the next line of `=`, each line that isn't a remark claims its text, without a last count, of the heading's point.
pub fn lines_below_a_heading_claim()
    ensures { LinesBelowAHeadingClaim }
{}

/// An ended file that holds no fault has the claims of its lines.
pub fn whole_file()
    ensures { WholeFileHasItsClaims }
{}

/// Lines claim what their sections claim, one after another.
pub fn claims_are_of_sections()
    ensures { ClaimsAreOfSections }
{}
