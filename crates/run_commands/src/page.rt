//! How a command is asked for, its line of the help, and its page.

ghost use Rattle.std.specs.Prelude.{◌≡◌, ◌++◌, ◌-◌, length, replicate, OnOk, flat_map, map};
ghost use Rattle.run_commands.specs.Settings.{setting_label};
ghost use Rattle.run_commands.specs.Table.{row, page, line_of, lines_of};
ghost use Rattle.run_commands.specs.Pages.{file_label, put_labels, each_word, label_line, name_text, usage_text, column, paragraph};

use crate::settings::Setting;
use crate::table::Usage;
use narrow_fraction::Memory;
use quantity_text::{push_bytes, push_number, push_text};
use run_inputs::ReadAs;

/// How wide the column of usages is.
const WIDTH: usize = 46;

/// Writes the names of the files that are read.
fn push_file_names(out: &mut Vec<u8>, readers: &[ReadAs]) -> Result<(), Memory>
    ensures { OnOk result (out.new.items ≡ out.old.items ++ flat_map name_text (map file_label readers.now)) }
{
    for reader in readers {
        push_text(out, " ")?;
        push_text(out, reader.label().0)?;
    }
    Ok(())
}

/// Writes the names of the words that name no file.
fn push_setting_names(out: &mut Vec<u8>, settings: &[Setting]) -> Result<(), Memory>
    ensures { OnOk result (out.new.items ≡ out.old.items ++ flat_map name_text (map setting_label settings.now)) }
{
    for setting in settings {
        push_text(out, " ")?;
        push_text(out, setting.label().0)?;
    }
    Ok(())
}

/// Writes the name of the file that is put, where there is one.
fn push_put_name(out: &mut Vec<u8>, usage: Usage) -> Result<(), Memory>
    ensures { OnOk result (out.new.items ≡ out.old.items ++ flat_map name_text (put_labels (row usage) (page usage))) }
{
    let row = usage.row();
    if row.puts {
        push_text(out, " ")?;
        push_text(out, row.put_name)?;
    }
    Ok(())
}

/// Writes how a command is asked for.
fn push_usage(out: &mut Vec<u8>, usage: Usage) -> Result<(), Memory>
    ensures { OnOk result (out.new.items ≡ out.old.items ++ usage_text (row usage) (page usage)) }
{
    let row = usage.row();
    push_text(out, "maxband ")?;
    push_text(out, row.word)?;
    push_file_names(out, row.reads)?;
    push_put_name(out, usage)?;
    push_setting_names(out, row.settings)
}

/// Writes blanks up to so many bytes.
fn fill_up(out: &mut Vec<u8>, width: usize) -> Result<(), Memory>
    ensures { OnOk result (out.new.items ≡ out.old.items ++ replicate (width - length out.old.items) 32) }
{
    let width = out.len().max(width);
    out.resize(width, b' ')?;
    Ok(())
}

/// Writes how a command is asked for, and blanks up to the next column.
fn push_column(out: &mut Vec<u8>, usage: Usage) -> Result<(), Memory>
    ensures { OnOk result (out.new.items ≡ out.old.items ++ column (row usage) (page usage)) }
{
    let mut text = Vec::new(*out.allocator());
    push_usage(&mut text, usage)?;
    push_text(&mut text, " ")?;
    fill_up(&mut text, WIDTH)?;
    push_bytes(out, text.as_slice())
}

/// Writes a command's line of the help.
pub fn push_line(out: &mut Vec<u8>, usage: Usage) -> Result<(), Memory>
    ensures { OnOk result (out.new.items ≡ out.old.items ++ line_of usage) }
{
    push_column(out, usage)?;
    push_text(out, usage.row().does)?;
    push_text(out, "\n")
}

/// Writes the line of a word of a usage: its name and what it is.
fn push_label(out: &mut Vec<u8>, name: &str, text: &str) -> Result<(), Memory>
    ensures { OnOk result (out.new.items ≡ out.old.items ++ label_line (record { name = name.now; text = text.now })) }
{
    push_text(out, name)?;
    push_text(out, ": ")?;
    push_text(out, text)?;
    push_text(out, "\n")
}

/// Writes the line of a file that is read.
fn push_file(out: &mut Vec<u8>, reader: ReadAs) -> Result<(), Memory>
    ensures { OnOk result (out.new.items ≡ out.old.items ++ label_line (file_label reader)) }
{
    let (name, text) = reader.label();
    push_text(out, name)?;
    push_text(out, ": ")?;
    push_text(out, text)?;
    push_text(out, ", at most ")?;
    push_number(out, u128::from(reader.most_bytes()))?;
    push_text(out, " bytes\n")
}

/// Writes the lines of the files that are read.
fn push_files(out: &mut Vec<u8>, readers: &[ReadAs]) -> Result<(), Memory>
    ensures { OnOk result (out.new.items ≡ out.old.items ++ flat_map label_line (map file_label readers.now)) }
{
    for reader in readers {
        push_file(out, *reader)?;
    }
    Ok(())
}

/// Writes the lines of the words that name no file.
fn push_settings(out: &mut Vec<u8>, settings: &[Setting]) -> Result<(), Memory>
    ensures { OnOk result (out.new.items ≡ out.old.items ++ flat_map label_line (map setting_label settings.now)) }
{
    for setting in settings {
        let (name, text) = setting.label();
        push_label(out, name, text)?;
    }
    Ok(())
}

/// Writes the line of the file that is put, where there is one.
fn push_put(out: &mut Vec<u8>, usage: Usage) -> Result<(), Memory>
    ensures { OnOk result (out.new.items ≡ out.old.items ++ flat_map label_line (put_labels (row usage) (page usage))) }
{
    let row = usage.row();
    if row.puts {
        push_label(out, row.put_name, usage.page().put)?;
    }
    Ok(())
}

/// Writes what each word of a command's usage is.
fn push_words(out: &mut Vec<u8>, usage: Usage) -> Result<(), Memory>
    ensures { OnOk result (out.new.items ≡ out.old.items ++ each_word label_line (row usage) (page usage)) }
{
    let row = usage.row();
    push_files(out, row.reads)?;
    push_put(out, usage)?;
    push_settings(out, row.settings)
}

/// Writes an empty line and a text.
fn push_paragraph(out: &mut Vec<u8>, text: &str) -> Result<(), Memory>
    ensures { OnOk result (out.new.items ≡ out.old.items ++ paragraph text.now) }
{
    push_text(out, "\n")?;
    push_text(out, text)
}

/// What any command prints by the other statuses.
pub const COMMON_LINES: &str =
    "3 refused KIND PLACE, 6 cannot read NAME, 9 too long NAME: of a file that is read
7 nothing more: a write failed; 8 nothing: memory was wanting; 12 nothing: a word is no text
files and lines: man maxband, docs/FORMATS.md
";

/// Writes these.
fn push_common(out: &mut Vec<u8>) -> Result<(), Memory>
    ensures { OnOk result (out.new.items ≡ out.old.items ++ paragraph COMMON_LINES.now) }
{
    push_paragraph(out, COMMON_LINES)
}

/// Writes what a command prints by status.
fn push_prints(out: &mut Vec<u8>, usage: Usage) -> Result<(), Memory>
    ensures { OnOk result (out.new.items ≡ out.old.items ++ paragraph (page usage).prints) }
{
    push_paragraph(out, usage.page().prints)
}

/// Writes a command's examples.
fn push_examples(out: &mut Vec<u8>, usage: Usage) -> Result<(), Memory>
    ensures { OnOk result (out.new.items ≡ out.old.items ++ paragraph (page usage).examples) }
{
    push_paragraph(out, usage.page().examples)
}

/// Writes what a command prints by status, what any command does, and examples.
fn push_answers(out: &mut Vec<u8>, usage: Usage) -> Result<(), Memory>
    ensures { OnOk result (out.new.items ≡ out.old.items ++ (paragraph (page usage).prints ++ (paragraph COMMON_LINES.now ++ paragraph (page usage).examples))) }
{
    push_prints(out, usage)?;
    push_common(out)?;
    push_examples(out, usage)
}

/// Writes a command's line of the help, and what each of its words is.
fn push_asking(out: &mut Vec<u8>, usage: Usage) -> Result<(), Memory>
    ensures { OnOk result (out.new.items ≡ out.old.items ++ (line_of usage ++ paragraph (each_word label_line (row usage) (page usage)))) }
{
    push_line(out, usage)?;
    push_text(out, "\n")?;
    push_words(out, usage)
}

/// Writes what the help has of a command alone.
pub fn push_page(out: &mut Vec<u8>, usage: Usage) -> Result<(), Memory>
    ensures { OnOk result (out.new.items ≡ out.old.items ++ lines_of usage) }
{
    push_asking(out, usage)?;
    push_answers(out, usage)
}
