ghost use Rattle.ic_name.specs.NameTexts.{OneName, ReadsBack};

/// Two names with one text are one name, and so reading the text that `write_to` gives can only give the name that
/// was written, or run out of memory.
pub fn read_back()
    ensures one { OneName }
    ensures back { ReadsBack }
{}
