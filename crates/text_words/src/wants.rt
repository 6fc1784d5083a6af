//! What may be wanted at a line of a text.

/// What may be wanted at a line.
#[derive(Clone, Copy, Debug, PartialEq, Eq)]
pub enum Wanted {
    Claim(ClaimLine),
    /// The patterns of the signals.
    Pattern,
    Numbers(NumberKey),
    Tree(TreeLine),
    /// The line `end`.
    End,
    /// The text is over.
    Nothing,
}

/// The first line of a text, or a line of a certificate's claim.
#[derive(Clone, Copy, Debug, PartialEq, Eq)]
pub enum ClaimLine {
    FirstLine,
    Verdict,
    Value,
    Bound,
    /// The fourth line of an open one.
    ValueOrNone,
}

/// A line of a timing's numbers, by its first word.
#[derive(Clone, Copy, Debug, PartialEq, Eq)]
pub enum NumberKey {
    Grid,
    Unit,
    Red,
    RunOut,
    RunIn,
    First,
    Band,
    HalfOut,
    HalfIn,
}

/// A line of a certificate's rows and of its tree.
#[derive(Clone, Copy, Debug, PartialEq, Eq)]
pub enum TreeLine {
    /// How many rows are listed.
    Rows,
    /// The name of one of them.
    Name,
    /// All of them, and no others.
    OwnRows,
    /// The line `tree`.
    Root,
    /// The first line of a node whose rows stand by their names.
    Node,
    /// The same where they stand by their places in the list.
    ListedNode,
    /// A line of a leaf.
    Weight,
    /// The same by the place in the list.
    ListedWeight,
    /// The last one of its leaf.
    ListedLast,
}
