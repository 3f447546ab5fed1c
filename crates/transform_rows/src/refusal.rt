// Why there is no model.
use sm_load::LoadRefusal;
use sm_model::{ModelEvent, ModelEvents, Severity};
use sm_transformed::TransformRefusal;
use sm_tree::NoMemory;
use std::fmt::Write;

/// Appends why files load to no model.
pub fn show_unloaded(refusal: &LoadRefusal, out: &mut String) -> Result<(), NoMemory> {
    match refusal {
        LoadRefusal::Text(number, _) => Ok(write!(out, "file {number} says nothing")?),
        LoadRefusal::Limit(kind) => Ok(write!(out, "past the limit {kind:?}")?),
        LoadRefusal::Rejected(events) => {
            out.push_str("no model")?;
            show_errors(events, out)
        }
        LoadRefusal::NoMemory => Err(NoMemory),
    }
}

/// Appends why a model isn't transformed.
pub fn show_refusal(refusal: &TransformRefusal, out: &mut String) -> Result<(), NoMemory> {
    match refusal {
        TransformRefusal::Namespace => Ok(out.push_str("Namespace")?),
        TransformRefusal::Rejected(events) => {
            out.push_str("rejected")?;
            show_errors(events, out)
        }
        TransformRefusal::NoMemory => Err(NoMemory),
    }
}

fn show_errors(events: &ModelEvents, out: &mut String) -> Result<(), NoMemory> {
    for event in events.as_slice() {
        show_error(event, out)?;
    }
    Ok(())
}

// Appends an event for which a model is rejected: its id, its shape, and its detail where it has one.
fn show_error(event: &ModelEvent, out: &mut String) -> Result<(), NoMemory> {
    if event.severity != Severity::Error {
        return Ok(());
    }
    write!(out, "; {} {}", event.id.as_str(), event.shape.as_str())?;
    let detail = event.detail.as_str();
    if !detail.is_empty() {
        write!(out, " {detail}")?;
    }
    Ok(())
}
