//! The laws of answers, of faults, and of what the statuses of the commands that search, check and explain say.

ghost use Rattle.run_laws.specs.Laws.{OneAnswer, RefusalsKeepFiles, PutIsAccepted, PutLinksAreAccepted, FaultsAreTold, SolveSays, LinksSay};
ghost use Rattle.run_laws.specs.{Laws.{HelpSays, HoldSays, CheckSays, CheckLinksSays, RenewSays}, ExplainLaws.{ExplainSays}};

/// A law over the definitions: what the files hold, and the words, leave one answer, its cause, its lines and what it puts, so that
/// each status but those of a verdict, of a fault and of want of memory comes exactly by its cause.
pub fn law_one_answer()
    ensures { OneAnswer }
{
    description_reader::law_one_answer();
    description_reader::law_one_typed();
    description_reader::law_one_text();
    time_space::law_one_first();
    time_space::law_fails_rules_out();
    certificate_checker::law_accepted_or_refused();
    band_measure::law_one_widest();
    band_measure::law_finer_pairs();
    half_integer::law_one_end();
    second_plan::law_one_end();
    second_plan::law_plan_or_end();
    second_plan::law_one_plan();
    typed_plan::law_one_timing();
    link_proof::law_link_accepted_or_refused();
}

/// A law over the definitions: `check` accepts the certificate that `solve` put, with the very claim of what was found.
pub fn law_put_is_accepted()
    ensures { PutIsAccepted }
{
    description_reader::law_one_answer();
    description_reader::law_one_typed();
    certificate_checker::law_accepted_or_refused();
}

/// A law over the definitions: `check-links` accepts the certificate that `links` put, with the very claim of what was found.
pub fn law_put_links_are_accepted()
    ensures { PutLinksAreAccepted }
{
    description_reader::law_one_answer();
    description_reader::law_one_typed();
    link_proof::law_link_accepted_or_refused();
}

/// A law over the definitions: unless a run ends by a fault no count has changed, so that no failed call is hidden.
pub fn law_faults_are_told()
    ensures { FaultsAreTold }
{}

/// A law over the definitions: a run that ends neither with a verdict nor by a failed put or write changed no file.
pub fn law_refusals_keep_files()
    ensures { RefusalsKeepFiles }
{}

/// A law over the definitions: after status 0 of `solve` the file that it put has a best timing of the described artery, after 1
/// none is good, and after 2 none is above the bound that the file has, and the cause is why the search stopped. That is what its first
/// lines tell, and `check` accepts what the put text is read as.
pub fn law_solve_says()
    ensures { SolveSays }
{}

/// A law over the definitions: after status 0 of `links` the file that it put has a best link timing of the described artery, after 1
/// none is good, and after 2 none has a value above the bound that the file has, and the cause is why the search stopped. That is what
/// its first lines tell, and `check-links` accepts what the put text is read as.
pub fn law_links_say()
    ensures { LinksSay }
{}

/// A law over the definitions: after status 0 of `--help` the command that any words ask for has its line in what was written, so that none
/// is missing there, and the line begins with the first of these words; after status 0 of `--help` with a word that is a command's, and just
/// what the help has of that command alone was written.
pub fn law_help_says()
    ensures { HelpSays }
{}

/// A law over the definitions: after status 0 of `hold` the timing is good and its weighted band was printed, and after 4 the rule
/// that the cause names fails.
pub fn law_hold_says()
    ensures { HoldSays }
{
    time_space::law_fails_rules_out();
}

/// A law over the definitions: after status 0 of `check` what the certificate claims holds of the artery and was printed, and after
/// 4 it isn't accepted, and the cause is its first refusal.
pub fn law_check_says()
    ensures { CheckSays }
{
    certificate_checker::law_accepted_or_refused();
}

/// A law over the definitions: after status 0 of `check-links` what the certificate claims holds of the artery's link timings and was
/// printed, and after 4 it isn't accepted, and the cause is its first refusal.
pub fn law_check_links_says()
    ensures { CheckLinksSays }
{
    link_proof::law_link_accepted_or_refused();
}

/// A law over the definitions: after status 0 of `explain` the file is read as one of its kind; of a description the street's lines were
/// written, those on its bounds, which no good timing's band exceeds, and the lines of just the warnings whose rule holds. After 3 the
/// other commands refuse the file with the line that was written first. No file changed.
pub fn law_explain_says()
    ensures { ExplainSays }
{
    street_words::law_bounds_say();
    street_words::law_warnings_say();
}

/// A law over the definitions: after status 0 of `renew` the file that it put holds the second text of the certificate that it read.
pub fn law_renew_says()
    ensures { RenewSays }
{}
