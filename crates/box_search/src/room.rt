//! Where boxes are opened.

use fraction_tableau::Tableau;

/// A tableau with the rows and columns of what is sought, and what its boxes are begun with besides.
#[derive(Drop)]
pub struct Room<S> {
    pub tableau: Tableau,
    pub spare: S,
}
