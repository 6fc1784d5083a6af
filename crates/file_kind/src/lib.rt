//! What a file is, by its bytes.
//!
//! A text whose first line is that of a timing, of a certificate in either format or of a certificate of links is such a text. A document of
//! TOML with the table `plan` and without `artery` is a typed plan. All else is taken as the description of a street, and `looks_like` says
//! what bytes look like that are none of these. `specs/Kinds.antt` and `specs/Looks.antt` have both as functions of the bytes; start with
//! `file_kind`. `text_format` tells the four first lines apart, and `before` and `after` cut bytes at the first of some byte.
#![tactic(auto)]

mod cut;
mod kind;
mod look;

pub use cut::{after, before};
pub use kind::{FileKind, TextFormat, file_kind, text_format, text_kind};
pub use look::{Look, look_line, looks_like};
