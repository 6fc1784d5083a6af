//! The linear model: each good timing is a point of linear programming, and lies in a box of whole numbers; here stand the
//! rows that such points meet, for contracts and proofs alone. This crate has no code but two laws.
//!
//! Begin with `specs/Promises.antt`, which `law_nothing_is_lost` keeps. All holds of timings of any size.
//!
//! Proved, in a sentence each: a whole band is green exactly where its wait and its width fit into the green, also a band of width
//! 0 and a line at the first tick of a red; the block sums of a good timing are whole and lie in the root box; the timing's point
//! meets every row of each box that it lies in, also those of least and equal bands, which look at no box; the two parts of a box
//! hold together what the box holds, and nothing twice; and a tree whose leaves cover or refute bounds every good timing, or rules
//! all of them out.
//!
//! Definitions, in the order in which they stand on each other (all on `Street`, `TimingRecord`, `Good` and `Columns` of `progression`):
//!
//! - `Places`: `place n c`, the number of a column among those of n signals, `width n`, `value_at n x c`.
//! - `Shifts`: a signal's distinct shifts, ranked upwards from 0: `shifts_of`, `shift_at a i rank`, `shift_count`.
//! - `Blocks`: `part`, `green_part`, `block_of` with its twelve terms in their order, `block_sum a x i`.
//! - `Boxes`: `Span`, `Ranks`, `Area`; `root_span`, `root_ranks`, `root_box`, `IsRoot`; `IsBoxOf a box`; `LoopIn`, `TurnIn`, `InBox a box t`;
//!   the parts `low_loop`, `high_loop`, `low_turn`, `high_turn` at an `IsLoopPlace` or `IsTurnPlace`.
//! - `Rows`: `Cell`, `placed_row` and `widened` (rows of any width); `Entry`, `Form`, `line a f` (the row of a form), a form for each family, `goal_form`.
//! - `Names`: `Name`; `FamilyOf N`, families of rows with any names; the table `families` with each family's text and its row of an index, which `name_of family index`, `is_lone` and
//!   `last_family` are read off; `rule_of n`, where a row stands and what it is, which `HasRow a n` and `form_of a box n` are read off.
//! - `Counts`: `IsStreet` (what an artery's numbers keep), `Counts a box t`, `IsGoodPoint a box x`.
//! - `Covering`: `CoversColumns` and `RefutesColumns` of any columns and goal, `CoversGoal a value r`, `RefutesAll a r`. `Trees`: `BoxTree L` and `AcceptedBy` with
//!   leaves of any kind, `sum_of_rows` and `AreMultipliers` of rows of any names; `Tree`, `leaf_sum`, `Accepted P a box tree`.
//! - `Promises`: `NothingIsLost`. `Worked`: boxes worked by hand, which `law_worked_boxes` decides.
//!
//! Lemmas, by what one asks, in `proofs/`:
//!
//! - When is a band green? `Remainders` and `Fits` of `progression`, and `Windows`: `window_after` and `window_before`,
//!   from green to `wait + band ≤ cycle - red` and back.
//! - What does a row say at a point? `PlacedRows` of rows of any width; `Points` (`share`, `point_at`, `point_width`), `SparseSums`: `line_met a t f h order shares`,
//!   `line_total` at any point, `line_width`.
//! - Are block sums whole? `WholeBlocks` in ticks, `Shares` and `BlockSums` in fractions: `block_sum_whole`.
//! - Are they in range? `RankedShifts`, `Ranges`, `Divided` (a rule of a good timing over its cycle), `Roots`: `root_law`; `RootBoxes`:
//!   `root_boxed`, `root_is`.
//! - Which rows are met? `Ratios` (the rule of the ratio in shares of the cycle, both ways), `RowLaws`, `BoxRowLaws`: a law for each family; `NamedRows`: `row_law`, `row_at_point`.
//! - Which numbers and indices do rows have? `Families`: `family_least`, `family_most`, `row_index`.
//! - What does a split lose? `Splits`, `TurnSplits`: `loop_split`, `loop_joined`, `loop_once`; `PartBoxes`: `low_loop_boxed`.
//! - What does a sum of rows prove? `Bounds`: `covered`, `refuted`, `covers_law`, `refutes_law`; `TreeLaws`: `tree_law`, `sum_met`, `bounded`, `no_timing`.
//! - How is it computed? `Spans`: `least_sum_is` and `greatest_sum_is`; `Quotients`: `floor_over` and `ceil_over`, one integer division each; `ShiftSizes`;
//!   `RowNumbers`: each number of a row as one fraction (`Shares.number_over` for plain quotients).
#![tactic(auto)]

mod laws;

pub use laws::{law_nothing_is_lost, law_worked_boxes};
