//! Laws over the definitions alone.

ghost use Rattle.plan_text.specs.{Promises.{OneText, ReadsBack}, FirstBad.{FirstBad}};

/// Bytes are read as a timing exactly where the program can hold it and they are its one text, and as a certificate
/// exactly where the program can hold it and they are one of its two texts.
pub fn law_one_text()
    ensures { OneText }
{}

/// The text of a timing that the program can hold, and each text of a certificate, is read as just that.
pub fn law_reads_back()
    ensures { ReadsBack }
{}

/// Where bytes are no timing, or no certificate, the line that is named is the first bad one, counted from 1: the
/// lines before it stand as they may, and with it no text does, whatever follows.
pub fn law_first_bad()
    ensures { FirstBad }
{}
