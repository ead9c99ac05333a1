//! Laws of expansions.
ghost use Rattle.vlog_pre.specs.Answer.{OneAnswer, OneText};

/// One list of files has at most one text.
pub fn one_text()
    ensures { OneText }
{}

/// Where no load fails and memory suffices, one list of files has at most one answer: a text, or the first fault.
pub fn one_answer()
    ensures { OneAnswer }
{}
