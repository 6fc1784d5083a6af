//! What the search has found and spent so far.

use crate::incumbent::Incumbent;
use work_meter::Meter;

/// The best timing so far, and the units of work.
#[derive(Drop)]
pub(crate) struct Progress<T> {
    pub(crate) incumbent: Option<Incumbent<T>>,
    pub(crate) meter: Meter,
}
