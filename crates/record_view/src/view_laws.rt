//! Laws of views, as contracts of empty functions.
ghost use Rattle.record_view.specs.Laws.{SpanIsSpelling, CutShows, EqualItems, ScanStays};

/// The bytes of an item are its only spelling.
pub fn span_is_spelling()
    ensures { SpanIsSpelling }
{}

/// A view of an item also holds of the item's own bytes, cut off from those after them.
pub fn cut_shows()
    ensures { CutShows }
{}

/// Two items in the same place of their records are equal exactly where their bytes are.
pub fn equal_items()
    ensures { EqualItems }
{}

/// A scan of an item stays right when more bytes come.
pub fn scan_stays()
    ensures { ScanStays }
{}
