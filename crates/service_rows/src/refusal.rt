// Why files load to no model.
use sm_load::LoadRefusal;
use sm_model::{ModelEvent, Severity};
use sm_tree::NoMemory;
use std::fmt::Write;

/// Appends a refusal: of a model that is rejected its errors.
pub fn show_refusal(refusal: &LoadRefusal, out: &mut String) -> Result<(), NoMemory> {
    match refusal {
        LoadRefusal::Text(number, _) => Ok(write!(out, "file {number} says nothing")?),
        LoadRefusal::Limit(kind) => Ok(write!(out, "past the limit {kind:?}")?),
        LoadRefusal::Rejected(events) => {
            out.push_str("rejected")?;
            for event in events.as_slice() {
                show_error(event, out)?;
            }
            Ok(())
        }
        LoadRefusal::NoMemory => Err(NoMemory),
    }
}

// Appends an event for which the model is rejected: its id, its shape, and its detail where it has one.
fn show_error(event: &ModelEvent, out: &mut String) -> Result<(), NoMemory> {
    if event.severity != Severity::Error {
        return Ok(());
    }
    write!(out, "; {} {}", event.id.as_str(), event.shape.as_str())?;
    let detail = event.detail.as_str();
    if !detail.is_empty() {
        write!(out, " {detail}")?;
    }
    Ok(())
}
