//! The text of what is told of a trial.
ghost use Rattle.std.specs.Prelude.{◌≡◌, ◌++◌, [], ◌∷◌, IfOk, OnOk, string_bytes, flat_map, length};
ghost use Rattle.world_trial.specs.Report.{is_assigned, assigned_in, line_text, counts_text};
ghost use Rattle.world_trial.specs.Report.{report_text};

use crate::report::TrialReport;
use ip_ranges::AddressList;
use kube_labels::Text;
use kube_lines::{record_line, trial_line};
use kube_model::Key;
use mlb_base::NoMemory;
use std::alloc::Global;

fn is_assigned(line: &(Key, AddressList)) -> bool
    ensures { result ≡ is_assigned line.now }
{
    !line.1.as_slice().is_empty()
}

fn assigned_in(records: &[(Key, AddressList)]) -> u64
    ensures { result ≡ assigned_in records.now }
{
    records.iter().filter(|line| is_assigned(line)).count() as u64
}

/// Appends the line, and its end.
fn push_line(text: &mut String, line: &Text) -> Result<(), NoMemory>
    ensures { OnOk result (string_bytes text.new ≡ string_bytes text.old ++ (line.now ++ 10 ∷ [])) }
{
    text.push_str(line.as_str())?;
    text.push('\n')?;
    Ok(())
}

#[tactic(auto, unfolding(crate::specs::Report::line_text))]
fn push_record(alloc: Global, text: &mut String, line: &(Key, AddressList)) -> Result<(), NoMemory>
    ensures { OnOk result (string_bytes text.new ≡ string_bytes text.old ++ line_text line.now) }
{
    let line = record_line(alloc, &line.0, line.1.as_slice())?;
    push_line(text, &line)
}

fn push_records(
    alloc: Global,
    text: &mut String,
    records: &[(Key, AddressList)],
) -> Result<(), NoMemory>
    ensures { OnOk result (string_bytes text.new ≡ string_bytes text.old ++ flat_map line_text records.now) }
{
    for line in records {
        push_record(alloc, text, line)?;
    }
    Ok(())
}

fn counts_line(alloc: Global, report: &TrialReport) -> Result<Text, NoMemory>
    ensures { IfOk result (λ line. line ≡ counts_text report.now) }
{
    let records = report.records.as_slice();
    let assigned = assigned_in(records);
    let services = records.len() as u64;
    trial_line(alloc, assigned, report.puts, services, report.steps)
}

/// The lines of the services that are stored in the end, by key, and then the line of the trial.
pub fn report_text(alloc: Global, report: &TrialReport) -> Result<String, NoMemory>
    ensures { IfOk result (λ text. string_bytes text ≡ report_text report.now) }
{
    let mut text = String::new(alloc);
    push_records(alloc, &mut text, report.records.as_slice())?;
    let counts = counts_line(alloc, report)?;
    push_line(&mut text, &counts)?;
    Ok(text)
}
