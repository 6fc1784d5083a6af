//! The row of each command, beside its usage as it was asked for.

use narrow_fraction::Memory;
use run_commands::{CommandRow, Setting, USAGES};
use run_inputs::ReadAs;
use std::alloc::Global;
use std::test::Fail;

/// In the order of the help: the word, what the files are read as, `NEW` where the next word names a file that may be put, the words behind, and
/// `*` where any of several best answers may be told.
static ROWS: [&str; 24] = [
    "solve STREET NEW [WORK] *",
    "check STREET CERT",
    "bands STREET TIMING",
    "round STREET CERT NEW",
    "round-from STREET CERT FILE NEW",
    "whole STREET CERT NEW [CYCLE ..] *",
    "half STREET TIMING NEW *",
    "timing STREET PLAN NEW",
    "draw STREET FILE NEW [TITLE]",
    "sheet STREET FILE NEW [REFERENCE]",
    "renew CERT NEW",
    "links STREET NEW [WORK] *",
    "check-links STREET LINKS",
    "hold STREET TIMING",
    "show STREET",
    "explain ANY",
    "narrow STREET NEW",
    "widen STREET NEW",
    "make SIGNALS SEED",
    "trial SIGNALS SEED WORK *",
    "sweep STREET NEW WORK CYCLE ..",
    "sensitivity STREET NEW WORK *",
    "--help [WORD]",
    "--version",
];

fn file_word(reader: ReadAs) -> &'static str {
    match reader {
        ReadAs::Description => " STREET",
        ReadAs::Timing => " TIMING",
        ReadAs::Certificate => " CERT",
        ReadAs::LinkCertificate => " LINKS",
        ReadAs::Timed => " FILE",
        ReadAs::TypedPlan => " PLAN",
        ReadAs::AnyFile => " ANY",
    }
}

fn setting_word(setting: Setting) -> &'static str {
    match setting {
        Setting::Signals => " SIGNALS",
        Setting::Seed => " SEED",
        Setting::Limit => " WORK",
        Setting::Work => " [WORK]",
        Setting::Cycles => " CYCLE ..",
        Setting::WholeCycles => " [CYCLE ..]",
        Setting::Title => " [TITLE]",
        Setting::Reference => " [REFERENCE]",
        Setting::Word => " [WORD]",
    }
}

fn spelled(alloc: Global, row: &CommandRow) -> Result<String, Memory> {
    let mut text = String::from_str(alloc, row.word)?;
    for reader in row.reads {
        text.push_str(file_word(*reader))?;
    }
    if row.puts {
        text.push_str(" NEW")?;
    }
    for setting in row.settings {
        text.push_str(setting_word(*setting))?;
    }
    if row.chooses {
        text.push_str(" *")?;
    }
    Ok(text)
}

#[test]
fn rows_are_the_usages(rt: HostRuntime) -> Result<(), Fail> {
    assert_eq!(rt; USAGES.len(), ROWS.len());
    for (usage, wanted) in USAGES.iter().zip(ROWS.iter()) {
        let text = spelled(rt.alloc(), &usage.row())?;
        assert_eq!(rt; text.as_str(), *wanted);
    }
    Ok(())
}
