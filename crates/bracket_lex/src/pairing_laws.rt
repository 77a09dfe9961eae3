//! Laws of pairing: rows are marks, pairs are nested, and levels count open rows.

ghost use Rattle.bracket_lex.specs.RowLaws.{RowsAreMarksInOrder, ClosersHaveRows, MarksWithinTheLimitHaveRows};
ghost use Rattle.bracket_lex.specs.LevelLaws.{OpenersCountTheOpen, LoneClosersCountTheOpen, OneMoreCloserHasARow, OneMoreOpenerHasARowBelowTheLimit};
ghost use Rattle.bracket_lex.specs.InsideLaws.{InsidesEndAtTheFirstCloser, OpenInsidesEndWithTheText, ClosersHaveNoInside};
ghost use Rattle.bracket_lex.specs.PairLaws.{PartnersAreMutual, OpenersComeFirst, PartnersAreAlike, ColoursGoByLevel, TheUnpairedHaveTheColourBehind, PairsNeverCross, OpenersAreBelowTheLimit, PartnersAreBelowTheLimit, ClosersTakeTheLastOpener};

/// Rows are marks, in order. Each closer has a row, and each opener where there are no more of them than the limit.
pub fn rows_are_marks()
    ensures in_order { RowsAreMarksInOrder }
    ensures closers { ClosersHaveRows }
    ensures within_limit { MarksWithinTheLimitHaveRows }
{}

/// However a text's marks are, the rows that `Paired` gives belong together in pairs of an opener and a closer.
pub fn partners_belong_together()
    ensures mutually { PartnersAreMutual }
    ensures in_order { OpenersComeFirst }
    ensures alike { PartnersAreAlike }
    ensures colour { ColoursGoByLevel }
    ensures unpaired { TheUnpairedHaveTheColourBehind }
{}

/// Pairs never cross, and are nested less deep than the limit says.
pub fn pairs_are_nested()
    ensures inside { PairsNeverCross }
    ensures openers { OpenersAreBelowTheLimit }
    ensures partners { PartnersAreBelowTheLimit }
{}

/// No closer passes by an opener that it could close.
pub fn closers_take_the_last_opener()
    ensures { ClosersTakeTheLastOpener }
{}

/// An opener's level is how many openers are open before it, and its kind level how many of its kind. A closer without
/// partner has such a level too, and kind level 0.
pub fn levels_count_open_rows()
    ensures openers { OpenersCountTheOpen }
    ensures closers { LoneClosersCountTheOpen }
{}

/// The inside of an opener ends where it is closed off, or with the text.
pub fn insides_end_where_closed_off()
    ensures closed_off { InsidesEndAtTheFirstCloser }
    ensures left_open { OpenInsidesEndWithTheText }
    ensures closers { ClosersHaveNoInside }
{}

/// Only an opener has no row, and only where as many openers are open as the limit says.
pub fn openers_at_the_limit_have_no_rows()
    ensures closers { OneMoreCloserHasARow }
    ensures openers { OneMoreOpenerHasARowBelowTheLimit }
{}
