// The laws of spellings, for proofs above: each is the contract of a function that does nothing.
ghost use Rattle.jet_spell.specs.Laws.{ReadsBack, IsSpelledSo, OneSpelling, SpellingsAreShort, FrontOf, OneList, SpelledOn, FirstIsRead};

/// What is spelled is read, whatever follows.
pub fn reads_back()
    ensures { ReadsBack }
{}

/// What is read is spelled so, and lies in the ranges of its types.
pub fn is_spelled_so()
    ensures { IsSpelledSo }
{}

/// Each item has one spelling, and none is the beginning of another.
pub fn one_spelling()
    ensures { OneSpelling }
{}

/// A spelling has 1 to 119 bytes.
pub fn spellings_are_short()
    ensures { SpellingsAreShort }
{}

/// Where the bytes of one list of items begin those of another, so do its items.
pub fn front_of()
    ensures { FrontOf }
{}

/// Bytes are the spellings of one list of items alone.
pub fn one_list()
    ensures { OneList }
{}

/// No bytes are the spellings of no items, and one spelling more is that of one item more.
pub fn spelled_on()
    ensures { SpelledOn }
{}

/// What is read of spellings is the first item, and the rest is spelled by the others.
pub fn first_is_read()
    ensures { FirstIsRead }
{}
