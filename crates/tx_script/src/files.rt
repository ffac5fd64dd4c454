// The files that a script reads and writes.
ghost use Rattle.std.specs.Prelude.{◌≡◌, [], ◌∷◌, ◌++◌, Option, map, IfOk, OnOk};
ghost use Rattle.std.specs.Option.{option_copied};
ghost use Rattle.std.specs.List.{flat_map};
ghost use Rattle.tx_name_set.specs.NameSet.{add_all};
ghost use Rattle.tx_script.specs.Checks as checks;
ghost use Rattle.tx_script.specs.Calls.View.{part_of, link_of, entry_view};
ghost use Rattle.tx_script.specs.Calls.Files.{sources_in, entry_sources, overwriting_each};

use crate::form::copy_text;
use crate::written::{Entry, Form, Link, Part};
use crate::{ScriptFault, ScriptKind};
use std::alloc::Global;
use tx_name_set::Names;
use tx_text::{NoMemory, PyText};

/// What stands behind the name of an output in the name of its report.
pub const REPORT_SUFFIX: &str = ".exceptions.csv";

/// The name of the report of an output.
pub fn report_name(output: &PyText) -> Result<PyText, NoMemory>
    ensures { IfOk result (λ r. r ≡ output.now ++ checks.report_suffix) }
{
    let mut name = copy_text(output)?;
    name.push_str(REPORT_SUFFIX)?;
    Ok(name)
}

// The file that an operator reads.
fn source_in<'a>(part: &Part<'a>) -> Option<&'a PyText>
    ensures { option_copied result ≡ checks.source_in (part_of part.now) }
{
    match part {
        Part::Operator(Form::Csv { file, .. }) => Some(file),
        _ => None,
    }
}

// The file that an operator writes.
fn output_in<'a>(part: &Part<'a>) -> Option<&'a PyText>
    ensures { option_copied result ≡ checks.output_in (part_of part.now) }
{
    match part {
        Part::Operator(Form::ToCsv { file }) => Some(file),
        _ => None,
    }
}

fn add_sources<'a>(files: &mut Names<'a>, links: &[Link<'a>]) -> Result<(), NoMemory>
    ensures { OnOk result (files.new ≡ add_all files.old (sources_in (map link_of links.now))) }
{
    for link in links {
        if let Some(file) = source_in(&link.part) {
            files.add(file)?;
        }
    }
    Ok(())
}

// The files that a script reads, itself among them.
fn files_read<'a>(
    alloc: Global,
    own: &'a PyText,
    entries: &[Entry<'a>],
) -> Result<Names<'a>, NoMemory>
    ensures { IfOk result (λ fs. fs ≡ add_all [] (own.now ∷ flat_map entry_sources (map entry_view entries.now))) }
{
    let mut files = Names::new(alloc);
    files.add(own)?;
    for entry in entries {
        add_sources(&mut files, entry.links.as_slice())?;
    }
    Ok(files)
}

fn overwrites(files: &Names<'_>, output: &PyText) -> Result<bool, NoMemory>
    ensures { IfOk result (λ b. b ≡ checks.overwrites files.now output.now) }
{
    Ok(files.has(output) || files.has(&report_name(output)?))
}

// Whether a link writes over one of these files.
fn overwrites_by(files: &Names<'_>, link: &Link<'_>) -> Result<bool, NoMemory>
    ensures { IfOk result (λ b. b ≡ checks.overwrites_by files.now (checks.output_in (link_of link.now).part)) }
{
    match output_in(&link.part) {
        Some(output) => overwrites(files, output),
        None => Ok(false),
    }
}

fn overwriting(files: &Names<'_>, links: &[Link<'_>]) -> Result<Option<ScriptFault>, NoMemory>
    ensures { IfOk result (λ o. o ≡ checks.overwriting files.now (map link_of links.now)) }
{
    for link in links {
        if overwrites_by(files, link)? {
            return Ok(Some(ScriptFault {
                kind: ScriptKind::OutputIsInput,
                line: link.line,
            }));
        }
    }
    Ok(None)
}

// The same in all blocks.
fn overwriting_in(files: &Names<'_>, entries: &[Entry<'_>]) -> Result<Option<ScriptFault>, NoMemory>
    ensures { IfOk result (λ o. o ≡ overwriting_each files.now (map entry_view entries.now)) }
{
    for entry in entries {
        if let Some(found) = overwriting(files, entry.links.as_slice())? {
            return Ok(Some(found));
        }
    }
    Ok(None)
}

/// An output that has the name of a file that is read, or whose report has.
pub(crate) fn output_is_input<'a>(
    alloc: Global,
    own: &'a PyText,
    entries: &[Entry<'a>],
) -> Result<Option<ScriptFault>, NoMemory>
    ensures { IfOk result (λ o. o ≡ checks.output_is_input own.now (map entry_view entries.now)) }
{
    let files = files_read(alloc, own, entries)?;
    overwriting_in(&files, entries)
}
