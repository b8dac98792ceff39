// Occurrences of landmarks, and a landmark's end: the definitions that every layer rests on, and the laws that guard them.
#![tactic(auto)]

ghost use Rattle.occurrence.specs.Laws.{OccursInParts, OneEnd, SearchFindsTheEnd};

// A landmark has one end, or none, in given bytes.
pub fn one_end()
    ensures { OneEnd }
{}

// Trying every pick computes a landmark's end.
pub fn search_finds_the_end()
    ensures { SearchFindsTheEnd }
{}

// An occurrence is a way to put the image together of words and fillers.
pub fn occurs_in_parts()
    ensures { OccursInParts }
{}
