//! What a file is and what stands in it, or what is wrong with it, in words for people.
//!
//! Start with `explained`. Bytes are read as what they are (`file_kind`): as a text, as a typed plan or as the description of a street. Of a
//! file that is read the lines say what it is and what stands in it; of one that is refused they begin with the line that every command
//! prints of it, and go on with the place, what stands there and what is wanted (`specs/Explained.antt`). What stands in a street is said by
//! `street_words`, in texts by `text_words`, and what is wrong with a document by `fault_words`.
#![tactic(auto)]

mod explain;
mod reading;
mod refusing;

pub use explain::explained;
