//! Laws of the answers about pairs: what their definitions say in the words of somebody who asks.
#![tactic(auto)]

ghost use Rattle.answer_laws.specs.MatchLaws.{MatchingTwiceComesBack};
ghost use Rattle.answer_laws.specs.PlaceLaws.{AroundIsTheNarrowest, JumpsGoToBrackets, LevelsCountThePairs};
ghost use Rattle.answer_laws.specs.GuideLaws.{GuidesLieInPairs};

/// From the partner of a bracket its own partner is the bracket.
pub fn matching_twice_comes_back()
    ensures { MatchingTwiceComesBack }
{}

/// Where a jump goes a bracket starts.
pub fn jumps_go_to_brackets()
    ensures { JumpsGoToBrackets }
{}

/// What is answered as the pair around a place stands around it, and no closed pair does so more narrowly.
pub fn around_is_the_narrowest()
    ensures { AroundIsTheNarrowest }
{}

/// The level of a place counts pairs that are listed for its line.
pub fn levels_count_the_pairs()
    ensures { LevelsCountThePairs }
{}

/// A guide's line lies strictly behind the opener's of a closed pair, and not behind the closer's.
pub fn guides_lie_in_pairs()
    ensures { GuidesLieInPairs }
{}
