// Requests for which the routes are asked, turn by turn.
use sm_routes::{Route, Routes};
use sm_tree::{NoMemory, Text};
use sm_uri::{UriPattern, UriRefusal};
use std::alloc::Global;

/// For how many requests an operation is found, in all turns together: before the empty line stand methods with patterns, behind it methods
/// with targets, a line each. `None` where the text isn't of this form.
pub fn found_after(alloc: Global, text: &str, turns: u32) -> Result<Option<u64>, NoMemory> {
    let Some((patterns, requests)) = text.split_once("\n\n") else {
        return Ok(None);
    };
    let Some(rows) = rows_of(alloc, patterns)? else {
        return Ok(None);
    };
    let routes = Routes::new(rows)?;
    let Some(requests) = requests_of(alloc, requests)? else {
        return Ok(None);
    };
    let mut found = 0u64;
    for _ in 0..turns {
        found = found.saturating_add(found_once(&routes, requests.as_slice()));
    }
    Ok(Some(found))
}

// For how many of them an operation is found.
fn found_once(routes: &Routes, requests: &[(&str, &str)]) -> u64 {
    let mut found = 0u64;
    for request in requests {
        if routes.find(request.0, request.1).is_some() {
            found = found.saturating_add(1);
        }
    }
    found
}

fn requests_of<'a>(
    alloc: Global,
    text: &'a str,
) -> Result<Option<Vec<(&'a str, &'a str)>>, NoMemory> {
    let mut requests = Vec::new(alloc);
    for line in text.lines() {
        match line.split_once(' ') {
            Some(request) => requests.push(request)?,
            None => return Ok(None),
        }
    }
    Ok(Some(requests))
}

fn rows_of(alloc: Global, text: &str) -> Result<Option<Vec<Route>>, NoMemory> {
    let mut rows = Vec::new(alloc);
    let mut number = 0u32;
    for line in text.lines() {
        match row_of(alloc, line, number)? {
            Some(row) => rows.push(row)?,
            None => return Ok(None),
        }
        number = number.saturating_add(1);
    }
    Ok(Some(rows))
}

fn row_of(alloc: Global, line: &str, number: u32) -> Result<Option<Route>, NoMemory> {
    let Some((method, uri)) = line.split_once(' ') else {
        return Ok(None);
    };
    let uri = match UriPattern::parse(alloc, uri) {
        Ok(uri) => uri,
        Err(UriRefusal::Bad(_)) => return Ok(None),
        Err(UriRefusal::NoMemory) => return Err(NoMemory),
    };
    Ok(Some(Route {
        method: Text::copy(alloc, method)?,
        uri,
        name: Text::copy(alloc, line)?,
        operation: number,
    }))
}
