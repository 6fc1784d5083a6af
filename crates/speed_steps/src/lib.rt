//! A street whose limits of speed are moved to short numbers, inwards or outwards, so that a search of it stays within narrow fractions.
//!
//! Start with `street_moved`: of a valid street the street in which both limits of each run are moved to a multiple of a step
//! (`specs/Steps.antt`), inwards by `Way::Inwards` and outwards by `Way::Outwards`; all else stays (`specs/Moved.antt`).
//!
//! A limit of speed is a limit of a run, and the speeds whose runs are multiples of the three steps of a unit are short whatever the
//! length is. A direction takes the first step by which both its limits, moved, are limits that a description may have; else they stay,
//! but that outwards each of them moves by itself where it can. Equal limits stay inwards. `stays` answers that none of a direction's
//! limits can be moved, and `limits_changed` how many of a street's are others than before. Laws (`specs/Laws.antt`): `law_narrow_is_within`,
//! every good timing of the narrowed street is good for the street; `law_widen_holds_all`, every good timing of the street is good for the
//! widened one; `law_runs_stay_near`, no limit of a run moves by as much as a step.
#![tactic(auto, using(rational_theory::proofs::Compare::ne_false, rational_theory::proofs::Compare::eq_true, rational_theory::proofs::Compare::lt_true, rational_theory::proofs::Compare::lt_false, rational_theory::proofs::Compare::le_true, rational_theory::proofs::Compare::le_false))]

mod laws;
mod limits;
mod steps;
mod street;
mod way;

pub use laws::{law_narrow_is_within, law_runs_stay_near, law_widen_holds_all};
pub use street::{limits_changed, stays, street_moved};
pub use way::Way;
