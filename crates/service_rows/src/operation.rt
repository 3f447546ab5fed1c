// An operation of a service, as rows show it: `Put=a#Put 1 -> 2 [a#Full 0 client 409] PUT /items/{id}?a 200 served`.
use rows::push_comma;
use sm_service::{ErrorShape, Errors, HttpRule, Operation, OperationServed};
use sm_tree::{NoMemory, Text};
use sm_uri::{Segment, UriPattern};
use std::alloc::Global;
use std::fmt::Write;

/// Appends an operation: its name and id, the numbers of its input and output, its errors, what `http` says, and whether it is served.
pub fn show_operation(
    alloc: Global,
    operation: &Operation,
    out: &mut String,
) -> Result<(), NoMemory> {
    write!(out, "{}={}", operation.name.as_str(), operation.id.as_str())?;
    write!(out, " {} -> {}", operation.input, operation.output)?;
    show_errors(&operation.errors, out)?;
    if let Some(rule) = &operation.http {
        show_rule(rule, out)?;
    }
    match &operation.served {
        OperationServed::Yes => Ok(out.push_str(" served")?),
        OperationServed::Unserved(path) => {
            let path = path.print(alloc)?;
            Ok(write!(out, " unserved {}", path.as_str())?)
        }
    }
}

// Appends errors in order, where there are any.
fn show_errors(errors: &Errors, out: &mut String) -> Result<(), NoMemory> {
    if errors.get(0).is_none() {
        return Ok(());
    }
    out.push_str(" [")?;
    let mut is_first = true;
    for place in 0..usize::MAX {
        match errors.get(place) {
            Some(error) => {
                push_comma(&mut is_first, out)?;
                show_error(error, out)?;
            }
            None => break,
        }
    }
    Ok(out.push(']')?)
}

// Appends an error: its id, its number, whose it is, and its status where it has one.
fn show_error(error: &ErrorShape, out: &mut String) -> Result<(), NoMemory> {
    let whose = if error.client { "client" } else { "server" };
    write!(out, "{} {} {whose}", error.id.as_str(), error.shape)?;
    if let Some(status) = error.status {
        write!(out, " {status}")?;
    }
    Ok(())
}

// Appends what `http` says.
fn show_rule(rule: &HttpRule, out: &mut String) -> Result<(), NoMemory> {
    write!(out, " {} ", rule.method.as_str())?;
    show_uri(&rule.uri, out)?;
    Ok(write!(out, " {}", rule.code)?)
}

// Appends a pattern of URIs as it is written.
fn show_uri(uri: &UriPattern, out: &mut String) -> Result<(), NoMemory> {
    if uri.segments.is_empty() {
        out.push('/')?;
    }
    for segment in &uri.segments {
        match segment {
            Segment::Literal(text) => write!(out, "/{}", text.as_str())?,
            Segment::Label(name) => write!(out, "/{{{}}}", name.as_str())?,
            Segment::Greedy(name) => write!(out, "/{{{}+}}", name.as_str())?,
        }
    }
    show_literals(uri.literals.as_slice(), out)
}

fn show_literals(literals: &[(Text, Option<Text>)], out: &mut String) -> Result<(), NoMemory> {
    let mut mark = '?';
    for (key, value) in literals {
        write!(out, "{mark}{}", key.as_str())?;
        if let Some(value) = value {
            write!(out, "={}", value.as_str())?;
        }
        mark = '&';
    }
    Ok(())
}
