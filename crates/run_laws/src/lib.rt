//! The laws of a run: what follows for whoever runs `maxband` from how a run ends, over the definitions of `maxband_run` alone.
//!
//! Nothing that runs rests on them, so they stand above the program's library and beside the program; each is a call that does nothing,
//! and what it states is said at it.
//!
//! - `runs` (`specs/Laws.antt`): `law_one_answer`: where the files tell their bytes, these and the words leave one answer alone, with
//!   what it puts, but that two verdicts of `solve`, of `links` or of `trial`, two plans of `half`, two answers of `whole` with status 0
//!   or 10, the rows of two tables of `sweep`, and what `explain` says of a text that is no TOML may differ. `law_solve_says` and its
//!   like say what the numbers of the statuses mean over the model, what is told, and what is put; those of `solve` and `links` are two
//!   instances of `SearchSays`, over the kind of timing that is sought (`Sought` of `run_commands`), and `law_explain_says` stands on
//!   `specs/ExplainLaws.antt`. `law_faults_are_told` says that each fault is told, `law_refusals_keep_files` that what ends without a
//!   verdict changes no file, and `law_put_is_accepted` that `check` accepts what `solve` put.
//! - `ends` (`specs/EndLaws.antt`): `law_runs_are_complete`: with which causes each command ends where its files are read and no call
//!   fails, so that none of them may give up.
//! - `plans` (`specs/PlanLaws.antt`): the same of `bands`, `half`, `round`, `round-from`, `narrow`, `widen`, `timing`, `draw`, `sheet`,
//!   `sweep`, `whole` (`specs/WholeLaws.antt`) and `sensitivity` (`specs/LimitLaws.antt`), and `law_plan_is_held`: `hold` accepts what
//!   `round` put; `law_timing_is_bounded`: a plan that holds is worth no more than what an accepted certificate bounds.
//! - `stops` (`specs/StopLaws.antt`): `law_solve_stop_says` and its like, which speak of boxes and pivots, and so stand apart;
//!   `law_all_never_stops_by_work`: `all` is no limit; and when the statuses of words and of faults come.
#![tactic(auto)]

mod ends;
mod plans;
mod runs;
mod stops;

pub use ends::law_runs_are_complete;
pub use plans::{
    law_bands_say, law_draw_says, law_half_says, law_narrow_says, law_plan_is_held,
    law_round_from_says, law_round_says, law_sensitivity_says, law_sheet_says, law_sweep_says,
    law_timing_is_bounded, law_timing_says, law_whole_says, law_widen_says,
};
pub use runs::{
    law_check_links_says, law_check_says, law_explain_says, law_faults_are_told, law_help_says,
    law_hold_says, law_links_say, law_one_answer, law_put_is_accepted, law_put_links_are_accepted,
    law_refusals_keep_files, law_renew_says, law_solve_says,
};
pub use stops::{
    law_all_never_stops_by_work, law_faults_are_counted, law_links_stop_says, law_solve_stop_says,
    law_words_are_told,
};
