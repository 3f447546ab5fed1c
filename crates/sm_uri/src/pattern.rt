// Patterns of URIs, and why a text is none.
ghost use Rattle.sm_uri.specs.UriPattern.{ParsesUri};
ghost use Rattle.sm_uri.specs.steps.UriReading.{ReadsUri};

use crate::bytes::strip;
use crate::path::read_path;
use crate::query::read_query;
use crate::stop::PatternStop;
use sm_tree::Text;
use std::alloc::Global;

/// A segment of a path.
#[derive(Debug, Drop)]
pub enum Segment {
    /// This text.
    Literal(Text),
    /// Any one segment, by the name of its label.
    Label(Text),
    /// One segment or more, by the name of its label.
    Greedy(Text),
}

/// A pattern of URIs (Smithy 2.0, "http trait", "uri"). No segments stand for `/` alone.
#[derive(Debug, Drop)]
pub struct UriPattern {
    /// The segments of the path.
    pub segments: Vec<Segment>,
    /// The literals of the query as they are written: a key, and a value where one is given.
    pub literals: Vec<(Text, Option<Text>)>,
}

/// Why a text isn't read as a pattern.
#[derive(Debug, Clone, Copy, PartialEq, Eq, Drop)]
pub enum UriRefusal {
    /// It is none: this many of its leading bytes are the most that begin one.
    Bad(u64),
    /// The allocator refused.
    NoMemory,
}

impl UriPattern {
    /// The pattern that a text spells; `Bad` with the number of leading bytes that begin one where it spells none. One pass, and
    /// n log n in the number of labels.
    pub fn parse(alloc: Global, text: &str) -> Result<Self, UriRefusal>
        ensures { ParsesUri text.now result }
    {
        match UriPattern::read(alloc, text) {
            Ok(pattern) => Ok(pattern),
            Err(PatternStop::At(rest)) => Err(UriRefusal::Bad((text.len() - rest.len()) as u64)),
            Err(PatternStop::NoMemory) => Err(UriRefusal::NoMemory),
        }
    }

    // The path, and then the query.
    fn read<'a>(alloc: Global, text: &'a str) -> Result<Self, PatternStop<'a>>
        ensures { ReadsUri text.now result }
    {
        let path = match read_path(alloc, text) {
            Ok(path) => path,
            Err(stop) => return Err(stop),
        };
        let query = match strip(path.behind, '?') {
            Some(query) => query,
            None => {
                return Ok(UriPattern {
                    segments: path.segments,
                    literals: Vec::new(alloc),
                });
            }
        };
        match read_query(alloc, query) {
            Ok(literals) => Ok(UriPattern {
                segments: path.segments,
                literals,
            }),
            Err(stop) => Err(stop),
        }
    }
}
