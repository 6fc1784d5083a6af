//! A tableau of fractions for the dual simplex method: rows with names, a goal row, and the exchange of a basic variable with
//! one that stands at a place.
//!
//! A `Tableau` is seen as a `NamedTableau` (`specs/NamedTableaus.antt`): the `Tableau` of `simplex_theory`, a list of names
//! and whether it is spent. Begin with `Tableau::new`, then load each row by `Tableau::load` and a goal by
//! `Tableau::load_goal`; `Tableau::pivot` exchanges two variables exactly, or names the first operation that leaves 128 bits
//! (`specs/Operations.antt` lists the operations in their order), `Tableau::pivot_noting` notes besides what the rows had at the
//! pivot's place, and `Tableau::basis` lists the basic variables. What an exchange keeps is in `simplex_theory`'s laws.
//!
//! A refused pivot leaves the tableau spent, and its goal row, basic and standing variables and names are those before. The
//! contract speaks of all operations; the code leaves out those with an operand 0, which are proved never to be refused: a row is a
//! list of its cells that aren't 0, with the bound apart, and is merged with the divided row into a spare list. A word marks the
//! places of its cells (`specs/Marks.antt`), so that most rows without a cell at the pivot's place are passed over by one test.
//! `law_first_refused` says that the refused operation is the first of the list that leaves 128 bits, and that none is refused
//! exactly where all fit. Only `new` and `basis` take memory.
//!
//! A row is narrow or wide, which no contract tells: narrow where its cells and its bound stand over one denominator and no number
//! has more than 42 bits (`specs/Scales.antt`). It is divided, and cleared by a narrow row, in whole numbers, with one common
//! divisor and one test of sizes a row. That no operation on the fractions is refused then is proved (`proofs/Small.antt`), so the
//! answers stay exact. A row that fails the test is cleared by fractions, and made narrow again where its numbers fit over their
//! least common denominator.
#![tactic(auto)]

mod basis;
mod dividing;
mod exchanging;
mod fractions;
mod fresh;
mod joining;
mod kept;
mod laws;
mod loading;
mod marks;
mod merging;
mod narrowing;
mod scale;
mod sparse_row;
mod tableau;
mod whole_dividing;
mod wide_cell;

pub use kept::Kept;
pub use laws::law_first_refused;
pub use tableau::Tableau;
pub use wide_cell::WideCell;
