//! What the drawing says of the model.

ghost use Rattle.diagram_draw.specs.Escapes.{EscapedIsPlain};
ghost use Rattle.diagram_draw.specs.Laws.{PlacesAscend, RedsHaveTwoParts, BandsMissReds, RedsAreShown, PiecesMeetWindows, BandsAreShown, PiecesAreSeen, PiecesAreOnce};
ghost use Rattle.diagram_draw.specs.Laws.{SignalsRise, PiecesJoinBars, PiecesMissBars, FieldIsExact, RedsAreReds};

/// The law that a later moment never stands further to the left.
pub fn law_places_ascend()
    ensures { PlacesAscend }
{}

/// The law that the common red and the rest of a direction's red are the whole of it, one after the other, and which is which.
pub fn law_reds_have_two_parts()
    ensures { RedsHaveTwoParts }
{}

/// The law that a direction's band is drawn over no red of the direction, in whatever cycles the two are.
pub fn law_bands_miss_reds()
    ensures { BandsMissReds }
{}

/// The law that a direction is red at a moment that is shown exactly where that moment is inside a red that is drawn.
pub fn law_reds_are_shown()
    ensures { RedsAreShown }
{}

/// The law that a band reaches the next signal a run later than it left, and begins there earlier by the clearance.
pub fn law_pieces_meet_windows()
    ensures { PiecesMeetWindows }
{}

/// The law that a direction's band leaves or enters a link at a moment that is shown exactly where a piece that is drawn does.
pub fn law_bands_are_shown()
    ensures { BandsAreShown }
{}

/// The law that of each piece that is drawn one end is within the time that is shown.
pub fn law_pieces_are_seen()
    ensures { PiecesAreSeen }
{}

/// The law that no piece is drawn twice.
pub fn law_pieces_are_once()
    ensures { PiecesAreOnce }
{}

/// The law that a later signal stands above an earlier one, by its bars at least for each link.
pub fn law_signals_rise()
    ensures { SignalsRise }
{}

/// The law that a band between two signals begins at the bars of the one and ends at those of the other.
pub fn law_pieces_join_bars()
    ensures { PiecesJoinBars }
{}

/// The law that a band crosses no bar between two signals.
pub fn law_pieces_miss_bars()
    ensures { PiecesMissBars }
{}

/// The law that the reds, bands and grounds of the model, and nothing else, are seen through the field of the diagram.
pub fn law_field_is_exact()
    ensures { FieldIsExact }
{}

/// The law that what is painted as a red there is one of the model.
pub fn law_reds_are_reds()
    ensures { RedsAreReds }
{}

/// The law that no name begins or ends an element.
pub fn law_escaped_is_plain()
    ensures { EscapedIsPlain }
{}
