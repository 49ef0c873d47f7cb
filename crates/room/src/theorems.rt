//! A theorem about where a text is broken into lines.
ghost use Rattle.room.specs.Leaving.{BreaksAreTaken};

/// States that a text that was laid out is broken at the characters that begin at the breaks. Their indices follow from
/// the breaks, because the offsets of characters rise. If each unit of the text is a character, they are the breaks.
pub fn breaks_are_taken()
    ensures { BreaksAreTaken }
{}
