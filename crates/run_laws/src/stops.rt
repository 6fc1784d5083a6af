//! The laws of why a search stopped, and of when the statuses of words, of faults and of work come.

ghost use Rattle.run_laws.specs.StopLaws.{AllNeverStopsByWork, SolveStopSays, LinksStopSays, WordsAreTold, FaultsAreCounted};

/// A law over the definitions: where the words say `all`, no search is stopped by work: `solve`, `links` and `trial` then end with a
/// best timing, with none, at a named number that left 128 bits or of a timing that would reach 2^80, by a counted fault or by want of memory,
/// and the first two also where their description is none of an artery; and no row of the table of `sweep` is open by work.
pub fn law_all_never_stops_by_work()
    ensures { AllNeverStopsByWork }
{}

/// A law over the definitions: after status 2 of `solve` the search stopped by work, where all units of its limit were spent and they
/// are fewer than are enough, or at the named site, to which the steps of a box of its tree lead.
pub fn law_solve_stop_says()
    ensures { SolveStopSays }
{}

/// A law over the definitions: the same of `links`.
pub fn law_links_stop_says()
    ensures { LinksStopSays }
{}

/// A law over the definitions: status 5 comes exactly where the words are none of the usages, unless a fault or want of memory ends
/// the run, also where the files tell nothing.
pub fn law_words_are_told()
    ensures { WordsAreTold }
{}

/// A law over the definitions: where no count of failed calls rises, as over files and an output that never fail, statuses 6 and 7
/// don't come.
pub fn law_faults_are_counted()
    ensures { FaultsAreCounted }
{}
