//! What the head of a part asks for. Files go by their names, and `out` is what the last run wrote.

/// What a part asks for.
#[derive(Clone, Copy)]
pub enum CaseStep<'a> {
    /// The rows are a text of this name.
    Text(&'a str),
    /// What is laid out from here to the next case lies there at the start of each case.
    Table,
    /// A case of this name begins, with nothing else there.
    Case(&'a str),
    Lay(Lay<'a>),
    /// A run by these words and those of the rows.
    Run(&'a str),
    /// The second file becomes what the first one is.
    Copy(&'a str, &'a str),
    Expect(Expected<'a>),
}

/// What lies there before the first run of a case.
#[derive(Clone, Copy)]
pub enum Lay<'a> {
    /// A file, of the text of a name, where there is one, and of the rows.
    File {
        name: &'a str,
        text: &'a str,
    },
    /// The rows in place of a line of a file as it was, counted from 1.
    Line {
        name: &'a str,
        number: usize,
    },
    /// A file has no more than its first lines.
    Cut {
        name: &'a str,
        lines: usize,
    },
    /// A file is filled up by a byte to a length, and then has the rows.
    Fill {
        name: &'a str,
        byte: u8,
        length: usize,
    },
    /// These calls on files fail, counted from 1.
    FailingCalls(&'a str),
    /// These writes of each run fail.
    FailingWrites(&'a str),
    /// A write takes at most so many bytes.
    Piece(usize),
}

/// What is to be after a run.
#[derive(Clone, Copy)]
pub enum Expected<'a> {
    /// The number of its status.
    Status(u8),
    /// A file is the text of a name, where there is one, and the rows.
    Holds {
        name: &'a str,
        text: &'a str,
    },
    /// A file begins with the rows.
    Begins(&'a str),
    /// A file ends with the rows.
    Ends(&'a str),
    /// A file is the first so many bytes of the text of a name.
    Front {
        name: &'a str,
        text: &'a str,
        length: usize,
    },
    /// A file is as another one.
    Same(&'a str, &'a str),
    /// A file has so many bytes.
    Size {
        name: &'a str,
        length: usize,
    },
    There(&'a str),
    Absent(&'a str),
}

/// The first word, and the rest.
fn first_word(words: &str) -> (&str, &str) {
    words.split_once(' ').unwrap_or((words, ""))
}

fn layout<'a>(verb: &str, rest: &'a str) -> Option<Lay<'a>> {
    let (name, more) = first_word(rest);
    match verb {
        "file" => Some(Lay::File { name, text: more }),
        "line" => Some(Lay::Line {
            name,
            number: more.parse().ok()?,
        }),
        "cut" => Some(Lay::Cut {
            name,
            lines: more.parse().ok()?,
        }),
        "fill" => {
            let (byte, length) = first_word(more);
            Some(Lay::Fill {
                name,
                byte: byte.parse().ok()?,
                length: length.parse().ok()?,
            })
        }
        "failing-calls" => Some(Lay::FailingCalls(rest)),
        "failing-writes" => Some(Lay::FailingWrites(rest)),
        "piece" => Some(Lay::Piece(rest.parse().ok()?)),
        _ => None,
    }
}

fn expectation<'a>(verb: &str, rest: &'a str) -> Option<Expected<'a>> {
    let (name, more) = first_word(rest);
    match verb {
        "status" => Some(Expected::Status(rest.parse().ok()?)),
        "holds" => Some(Expected::Holds { name, text: more }),
        "begins" => Some(Expected::Begins(rest)),
        "ends" => Some(Expected::Ends(rest)),
        "front" => {
            let (text, length) = first_word(more);
            Some(Expected::Front {
                name,
                text,
                length: length.parse().ok()?,
            })
        }
        "same" => Some(Expected::Same(name, more)),
        "size" => Some(Expected::Size {
            name,
            length: more.parse().ok()?,
        }),
        "there" => Some(Expected::There(rest)),
        "absent" => Some(Expected::Absent(rest)),
        _ => None,
    }
}

/// What a head asks for, or nothing where it isn't understood.
pub fn step_of(head: &str) -> Option<CaseStep<'_>> {
    let (verb, rest) = first_word(head);
    match verb {
        "text" => Some(CaseStep::Text(rest)),
        "table" => Some(CaseStep::Table),
        "case" => Some(CaseStep::Case(rest)),
        "run" => Some(CaseStep::Run(rest)),
        "copy" => {
            let (from, to) = first_word(rest);
            Some(CaseStep::Copy(from, to))
        }
        _ => match layout(verb, rest) {
            Some(lay) => Some(CaseStep::Lay(lay)),
            None => Some(CaseStep::Expect(expectation(verb, rest)?)),
        },
    }
}
