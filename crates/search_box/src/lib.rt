//! Boxes: for each link a span of whole block sums, and for each signal a span of shift ranks.
//!
//! The block sum of a link is what two neighbouring signals and the two lines between them add up to, in fractions of
//! the cycle; in a good timing it is a whole number. The distinct shifts of a signal's allowed patterns are ranked
//! upwards from 0. Contracts see a `SearchBox` as an `Area` of the linear model. Start with `SearchBox::root`, which has
//! room for every good timing, and cut it by `SearchBox::split`, or in place by `SearchBox::replace`.
//!
//! `root_span` and `SearchBox::root` are the root box exactly; no operation can be refused, since each end of a root span is one
//! division of whole numbers. `split` answers the two parts exactly, and None exactly where one of them would be empty or the link
//! or signal isn't there: the parts share out the block sums and ranks that the box holds, none twice. `replace` puts another span
//! in place, without memory, and answers the former one; a box of an artery stays one where the span is the root box's or isn't
//! empty and lies within it. An empty root span, its least above its most, is a box like others: it can't be split. `shift_count`
//! and `shift_at` rank the distinct shifts. `law_shifts_are_ranked`: a number of parts has a rank exactly where it is the shift of
//! an allowed pattern, greater ranks have greater shifts, and there are at most four.
#![tactic(auto)]

mod area;
mod laws;
mod replace;
mod root;
mod share;
mod shifts;
mod span;
mod split;
mod whole_parts;

pub use area::SearchBox;
pub use laws::{law_shifts_are_ranked, law_valid_street};
pub use root::root_span;
pub use shifts::{shift_at, shift_count};
pub use span::{At, Span};
