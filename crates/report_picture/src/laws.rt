//! What holds of pictures and pages.

ghost use Rattle.report_picture.specs.Laws.{DetailsBalance, HeightsAreShares, TextsAreEscaped};

/// An escaped text has no quotation mark and no bracket of an element, and each & begins an entity.
pub fn texts_are_escaped()
    ensures { TextsAreEscaped }
{}

/// A step's height is the greatest number of 400ths of the greatest value that isn't above its own value, and at most 400.
pub fn heights_are_shares()
    ensures { HeightsAreShares }
{}

/// In a page as many nodes are ended as begun.
pub fn details_balance()
    ensures { DetailsBalance }
{}
