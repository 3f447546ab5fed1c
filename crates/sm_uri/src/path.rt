// The path of a pattern: segments, whose labels differ, and of which a greedy one is the last.
ghost use Rattle.std.specs.Prelude.{◌≡◌, ◌∷◌, ◌++◌, ◌||◌, [], ℕ, List, OnOk, false};
ghost use Rattle.std.specs.Str.{bytes_eq};
ghost use Rattle.sm_bytes.specs.Ascii.{left_brace};
ghost use Rattle.sm_uri.specs.steps.UriReading.{IsNotRoot, IsPathRead, ReadsPath, ReadsSegment, holds_text, labelled};

use crate::bytes::{LiteralBytes, cut_run, may_be_root, may_end, strip};
use crate::label::{label_end, name_at};
use crate::pattern::Segment;
use crate::stop::PatternStop;
use sm_tree::{NoMemory, Text};
use std::alloc::Global;
use std::collections::BTreeSet;

/// What was read of a path.
#[derive(Drop)]
pub(crate) struct Path<'a> {
    /// The segments so far.
    pub segments: Vec<Segment>,
    /// The names of their labels.
    pub names: BTreeSet<&'a str>,
    /// Whether one of them is greedy.
    pub greedy: bool,
}

/// A path, and what is behind it.
#[derive(Drop)]
pub(crate) struct PathRead<'a> {
    /// The segments.
    pub segments: Vec<Segment>,
    /// What is behind them.
    pub behind: &'a str,
}

/// Reads the path that stands first.
pub(crate) fn read_path<'a>(alloc: Global, text: &'a str) -> Result<PathRead<'a>, PatternStop<'a>>
    ensures { ReadsPath text.now result }
{
    let mut rest = match strip(text, '/') {
        Some(rest) => rest,
        None => return Err(PatternStop::At(text)),
    };
    let mut path = Path {
        segments: Vec::new(alloc),
        names: BTreeSet::new(alloc),
        greedy: false,
    };
    if may_be_root(rest) {
        return Ok(PathRead {
            segments: path.segments,
            behind: rest,
        });
    }
    'segments: loop {
        let behind = match path.segment(alloc, rest) {
            Ok(behind) => behind,
            Err(stop) => return Err(stop),
        };
        rest = match strip(behind, '/') {
            Some(rest) => rest,
            None => {
                return Ok(PathRead {
                    segments: path.segments,
                    behind,
                });
            }
        };
    }
}

impl<'a> Path<'a> {
    // Reads a segment behind its `/`: answers what is behind it.
    fn segment(&mut self, alloc: Global, rest: &'a str) -> Result<&'a str, PatternStop<'a>>
        requires read { IsPathRead self.old }
        requires some { IsNotRoot self.old.segments.items rest.now }
        ensures { ReadsSegment self.old self.new rest.now result }
    {
        match strip(rest, '{') {
            Some(inside) => {
                if self.greedy {
                    return Err(PatternStop::At(rest));
                }
                self.label(alloc, inside)
            }
            None => self.literal(alloc, rest),
        }
    }

    // Literal text.
    fn literal(&mut self, alloc: Global, rest: &'a str) -> Result<&'a str, PatternStop<'a>>
        requires read { IsPathRead self.old }
        requires some { IsNotRoot self.old.segments.items rest.now }
        requires literal { (more : List ℕ) → rest.now ≡ left_brace ∷ more → ⊥ }
        ensures { ReadsSegment self.old self.new rest.now result }
    {
        let cut = cut_run::<LiteralBytes>(rest);
        if cut.taken.is_empty() || !may_end(cut.behind) {
            return Err(PatternStop::At(cut.behind));
        }
        self.segments
            .push(Segment::Literal(Text::copy(alloc, cut.taken)?))?;
        Ok(cut.behind)
    }

    // A label behind its brace.
    fn label(&mut self, alloc: Global, inside: &'a str) -> Result<&'a str, PatternStop<'a>>
        requires read { IsPathRead self.old }
        requires first { self.old.greedy ≡ false }
        ensures { ReadsSegment self.old self.new (left_brace ∷ inside.now) result }
    {
        let name = match name_at(inside) {
            Ok(name) => name,
            Err(rest) => return Err(PatternStop::At(rest)),
        };
        if self.names.contains(name.taken) {
            return Err(PatternStop::At(name.behind));
        }
        match label_end(name.behind) {
            Ok(end) => {
                self.labelled(alloc, name.taken, end.greedy)?;
                Ok(end.behind)
            }
            Err(rest) => Err(PatternStop::At(rest)),
        }
    }
    // Puts a label behind what was read.
    fn labelled(&mut self, alloc: Global, name: &'a str, greedy: bool) -> Result<(), NoMemory>
        ensures segments { OnOk result (self.new.segments.items ≡ self.old.segments.items ++ labelled greedy name.now ∷ []) }
        ensures names { OnOk result ((id : List ℕ) →
            holds_text self.new.names id ≡ (holds_text self.old.names id || bytes_eq name.now id)) }
        ensures greedy { OnOk result (self.new.greedy ≡ greedy) }
    {
        match self.names.insert(name) {
            Ok(_) => {}
            Err(_) => return Err(NoMemory),
        }
        let name = Text::copy(alloc, name)?;
        self.greedy = greedy;
        self.segments.push(label_of(greedy, name))?;
        Ok(())
    }
}

// The label of a name.
fn label_of(greedy: bool, name: Text) -> Segment
    ensures { result ≡ labelled greedy name }
{
    if greedy {
        Segment::Greedy(name)
    } else {
        Segment::Label(name)
    }
}
