ghost use Rattle.event_lines.specs.Spelling.{ReadIsSpelling, SpellingIsRead};

/// The line that spells a request is read as that request, for each whose numbers are in range and whose names and value
/// can be written.
pub fn spelling_is_read()
    ensures { SpellingIsRead }
{}

/// A line that is read as a request is the one that spells it, byte by byte. Only behind `set` the value may be written in
/// another way: there stands a text whose value it is.
pub fn read_is_spelling()
    ensures { ReadIsSpelling }
{}
