//! The laws of plans, bands, pictures and tables.

ghost use Rattle.run_laws.specs.PlanLaws.{BandsSay, HalfSays, RoundSays, RoundFromSays, NarrowSays, WidenSays, TimingSays, TimingIsBounded, DrawSays, SheetSays};
ghost use Rattle.run_laws.specs.PlanLaws.{SweepSays, PlanIsHeld};
ghost use Rattle.run_laws.specs.{LimitLaws.{SensitivitySays}, WholeLaws.{WholeSays}};

/// A law over the definitions: after status 0 of `bands` the widest bands on the timing's offsets were printed, and after 4 a rule
/// of the base fails.
pub fn law_bands_say()
    ensures { BandsSay }
{}

/// A law over the definitions: after status 0 of `half` the file that it put has a timing with the widest equal bands over all
/// offsets, or there are none on any grid and nothing was put; after 4 a rule of the base fails, and after 11 the timing
/// can have no such plan; no file changed.
pub fn law_half_says()
    ensures { HalfSays }
{
    half_integer::law_one_end();
}

/// A law over the definitions: after status 0 of `round` the file that it put holds the text of a timing that is good on the
/// described artery and, on its grid, the best with its offsets, and no good timing is better by more than the printed loss. Its cycle
/// and offsets, which are printed, are those of the certificate's timing, rounded to seconds. After 4 the certificate isn't accepted,
/// and after 10 no plan is made of it; no file changed.
pub fn law_round_says()
    ensures { RoundSays }
{
    certificate_checker::law_accepted_or_refused();
}

/// A law over the definitions: after status 0 of `round-from` the file that it put holds the text of a timing that is good on the described
/// artery and, on its grid, the best with its offsets, and no good timing is better by more than the printed loss. Its cycle and offsets,
/// which are printed, are those of the other timing, rounded to seconds. After 4 the certificate is accepted neither for the artery nor for the artery with its
/// limits of speed moved outwards, or the rule that the
/// cause names fails, and after 10 no plan is made of the other timing; no file changed.
pub fn law_round_from_says()
    ensures { RoundFromSays }
{
    certificate_checker::law_accepted_or_refused();
    time_space::law_fails_rules_out();
}

/// A law over the definitions: after status 0 of `whole` the file that it put holds the text of a timing whose cycle and offsets, which are
/// printed, are whole seconds. It is good on the described artery, and the widest plan over the cycles that the words and the street's limits
/// leave to be tried; no good timing is better by more than the printed loss, no runs within the limits and no firsts are better with its
/// cycle, patterns, offsets and grid, and no move of its offsets is. After 4 the certificate is
/// accepted neither for the artery nor for the widened one, and after 10 there is no plan, for this reason; no file changed.
pub fn law_whole_says()
    ensures { WholeSays }
{
    certificate_checker::law_accepted_or_refused();
}

/// A law over the definitions: after status 0 of `narrow` the file that it put holds the text of the described street with its limits of speed moved
/// inwards, and every timing that is good for that is good for the street.
pub fn law_narrow_says()
    ensures { NarrowSays }
{}

/// A law over the definitions: after status 0 of `widen` the file that it put holds the text of the described street with its limits of speed moved
/// outwards, and every good timing of the street is good for that.
pub fn law_widen_says()
    ensures { WidenSays }
{}

/// A law over the definitions: after status 0 of `timing` the file that it put holds the text of the timing of the typed plan, whichever
/// rules it breaks; its bands and its weighted band were printed, and then the first rule that it breaks, or that it holds. After 3 a file
/// isn't read or the plan has more or fewer numbers than the artery has signals or links, and after 11 the timing has too many ticks; no
/// file changed. It never ends with 4.
pub fn law_timing_says()
    ensures { TimingSays }
{}

/// A law over the definitions: a plan that `timing` told to hold is worth no more than what a certificate bounds that `check` accepted for
/// the same description.
pub fn law_timing_is_bounded()
    ensures { TimingIsBounded }
{
    description_reader::law_one_answer();
    description_reader::law_one_typed();
    certificate_checker::law_accepted_or_refused();
}

/// A law over the definitions: after status 0 of `draw` the file that it put holds the picture of the timing of its second file, which has
/// as many signals as the described artery, and the first rule that the timing breaks was told, where it breaks one; after 4 it has another
/// number of signals, and after 10 the file is a certificate without a timing, and no file has changed.
pub fn law_draw_says()
    ensures { DrawSays }
{}

/// A law over the definitions: the same of `sheet`, whose file holds the table of the timing, and which tells the cycle, the bands and what
/// `hold` says.
pub fn law_sheet_says()
    ensures { SheetSays }
{}

/// A law over the definitions: after status 0 of `sweep` the file that it put holds the table of its cycles, and each record says what
/// holds of the street at its cycle.
pub fn law_sweep_says()
    ensures { SweepSays }
{
    cycle_sweep::law_rows_say();
}

/// A law over the definitions: after status 0 of `sensitivity` the file that it put holds the table of the street's changes, each record says
/// what holds of the street with its change, and the lines of the changes that gain were written.
pub fn law_sensitivity_says()
    ensures { SensitivitySays }
{
    limit_sensitivity::law_rows_say();
}

/// A law over the definitions: `hold` accepts the plan that `round` put.
pub fn law_plan_is_held()
    ensures { PlanIsHeld }
{
    description_reader::law_one_answer();
    description_reader::law_one_typed();
    time_space::law_fails_rules_out();
}
