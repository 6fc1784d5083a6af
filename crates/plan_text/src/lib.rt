//! Texts of plans: a timing has one spelling and a certificate two, and what is read is exactly that. Where a text is
//! refused, its first bad line is named with what is wrong there.
//!
//! Contracts see a timing as the `TimingRecord` of the model, and a certificate as a `Warrant`: a claim, a timing where the
//! claim has a value, and one tree of splits and leaves in preorder. `specs/Spelling`, `specs/FirstText` and
//! `specs/SecondText` have their texts, and `specs/Lines`, `specs/Reading` and `specs/CertificateReading` say which fault
//! comes at which line. Start with `read_timing` and `read_certificate`.
//!
//! For certificates with another kind of timing or with other rows: such a type is a `CertificateKind`, `headed_at` and `write_named`
//! read and write its certificates, and `tree_at` and `push_tree` a tree with its rows over a table of families.
//!
//! `read_timing` answers a timing exactly where the bytes are its text (`found`, `only`), and otherwise the first bad line with the
//! first fault that applies to it (`exact`). `write_timing` writes that text, and what it writes is read back as that very timing
//! (`read_back`). `write_certificate` writes the first text of a certificate, and `write_second` the second, in which the rows that
//! the leaves name are listed once and a leaf has whole numbers over their least common denominator. `read_certificate` reads both,
//! by the first line (`certificate_of`). The reader of the second takes a leaf's multipliers, asks the function by which the writer
//! chooses a leaf's form, and compares; so the rule on the common divisor stands in one place. Another form is a bad number of the
//! leaf's last line, and comes before the order of that line. The type `Certificate` keeps that a
//! timing stands exactly where the claim has a value, that the nodes are one whole tree in preorder, and that the rows of each leaf
//! have names and ascend (`IsCertificate`). What a certificate shows of an artery is said by `certificate_checker`.
//!
//! Laws over the definitions. `law_one_text`: reading and writing are one notion, bytes being read as a timing exactly where the
//! program can hold it and they are its text, and as a certificate exactly where they are one of its two; `law_reads_back` is the
//! half of it that starts from the text. `law_first_bad`, what a named line means: a missing line is the one after all whole lines,
//! any other is one of the text's, counted from 1; a text cut before it is whole or misses only its next line; and whatever follows
//! it the answer is the same, so the text of no timing or certificate begins with these lines. `law_divisor_rule`: the denominator
//! of a leaf is the least common one exactly where it and all the whole numbers have no common divisor.
#![tactic(auto)]

mod cert_reading;
mod cert_writing;
mod claim;
mod cut;
mod divisor_law;
mod family;
mod fault;
mod form;
mod fraction;
mod kind;
mod laws;
mod leaf;
mod lines;
mod listed;
mod naming;
mod numeral;
mod reading;
mod row;
mod row_list;
mod second_writing;
mod tree;
mod tree_writing;
mod writing;

pub use cert_reading::{headed_at, read_certificate};
pub use cert_writing::{write_certificate, write_named};
pub use certificate_model::{
    CertNode, Certificate, Claim, FAMILIES, FamilyName, family_name_in, is_lone_in,
};
pub use claim::ClaimParts;
pub use divisor_law::law_divisor_rule;
pub use fault::{BadText, TextEnd, TextFault};
pub use kind::CertificateKind;
pub use laws::{law_first_bad, law_one_text, law_reads_back};
pub use naming::Naming;
pub use numeral::{is_numeral, number};
pub use reading::{BothWays, base_at, both_ways_at, pair_at, read_timing};
pub use second_writing::write_second;
pub use tree::tree_at;
pub use tree_writing::push_tree;
pub use writing::{push_base, push_firsts, push_numbers, write_timing};
