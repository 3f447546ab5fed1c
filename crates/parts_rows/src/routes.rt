// Routes: which of several patterns a request goes to.
use sm_routes::{Route, Routes};
use sm_tree::{NoMemory, Text};
use sm_uri::{UriPattern, UriRefusal};
use std::alloc::Global;

/// Appends the number of the pattern to which a request goes, from 0 on: behind the request, which is a method and a target, stand methods
/// with patterns, each behind a bar.
pub fn route(alloc: Global, text: &str, out: &mut String) -> Result<(), NoMemory> {
    let mut parts = text.split('|');
    let Some((method, target)) = parts.next().and_then(words) else {
        return Ok(out.push_str("no request")?);
    };
    let mut rows = Vec::new(alloc);
    let mut number = 0u32;
    for part in parts {
        match route_of(alloc, part, number)? {
            Some(row) => rows.push(row)?,
            None => return Ok(out.push_str("no pattern")?),
        }
        number = number.saturating_add(1);
    }
    let routes = Routes::new(rows)?;
    match routes.find(method, target) {
        Some(found) => Ok(write!(out, "{found}")?),
        None => Ok(out.push_str("none")?),
    }
}

fn words(part: &str) -> Option<(&str, &str)> {
    part.trim().split_once(' ')
}

fn route_of(alloc: Global, part: &str, number: u32) -> Result<Option<Route>, NoMemory> {
    let Some((method, uri)) = words(part) else {
        return Ok(None);
    };
    let uri = match UriPattern::parse(alloc, uri) {
        Ok(uri) => uri,
        Err(UriRefusal::Bad(_)) => return Ok(None),
        Err(UriRefusal::NoMemory) => return Err(NoMemory),
    };
    Ok(Some(Route {
        method: Text::copy(alloc, method)?,
        uri,
        name: Text::copy(alloc, part)?,
        operation: number,
    }))
}
