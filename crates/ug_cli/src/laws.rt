ghost use Rattle.ug_cli.specs.Taken.{CrossedIsNotTaken, WordsTellTheNeeds};

/// The answers of `read_words` exclude one another: words that are refused since their high is
/// below their low ask for no other plan, whose high is not.
pub fn crossed_is_not_taken()
    ensures { CrossedIsNotTaken }
{}

/// The words determine what a run needs beside its files: each of their plans needs the same.
pub fn words_tell_the_needs()
    ensures { WordsTellTheNeeds }
{}
