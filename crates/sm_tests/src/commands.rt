// What only tests say of commands: that a pattern that the store refuses ends a command where memory is ample, with the first id that carries it.
use sm_asked::CommandStop;
use sm_bodies::BodyForm;
use sm_body_command::BodyWords;
use sm_body_command::body::body;
use sm_io::{Files, MemFiles, MemSource};
use sm_shapes::LiteralPatterns;
use sm_tree::NoMemory;
use std::alloc::Global;
use std::test::Fail;

/// A model in which a shape and a member carry patterns, and two shapes carry one.
const MODEL: &str = r##"{"smithy":"2.0","shapes":{
"p#T":{"type":"structure","members":{"n":{"target":"p#N"},"k":{"target":"p#K"},"m":{"target":"p#M"}}},
"p#N":{"type":"string","traits":{"smithy.api#pattern":"["}},
"p#K":{"type":"string","traits":{"smithy.api#pattern":"("}},
"p#M":{"type":"string","traits":{"smithy.api#pattern":"["}},
"p#Z":{"type":"string","traits":{"smithy.api#pattern":"x"}}}}"##;

// What `body` comes to on an empty object of the shape, over a store that refuses in these calls: what is printed, or the line that names the
// shape or member of a refused pattern.
fn refused(
    alloc: Global,
    shape: &str,
    calls: Vec<u64>,
) -> Result<Result<Vec<u8>, CommandStop>, NoMemory> {
    let mut files = MemFiles::new(alloc, Vec::new(alloc), Vec::new(alloc));
    match files.write("p.json", MODEL.as_bytes()) {
        Ok(()) => {}
        Err(_) => return Err(NoMemory),
    }
    let words = BodyWords {
        model: "p.json",
        shape,
        near: BodyForm::Json,
        far: BodyForm::Json,
    };
    let mut empty_object = Vec::new(alloc);
    empty_object.extend_from_slice(b"{}")?;
    let mut input = MemSource::new(empty_object, Vec::new(alloc), Vec::new(alloc));
    let mut patterns = LiteralPatterns::new(alloc, calls);
    Ok(body(alloc, words, &mut files, &mut input, &mut patterns))
}

// The line of a pattern that the store refused, if that is how a command ends.
fn pattern_line(ended: Result<Vec<u8>, CommandStop>) -> Option<Vec<u8>> {
    match ended {
        Err(CommandStop::Pattern(line)) => Some(line),
        _ => None,
    }
}

#[test]
fn a_refused_pattern_is_told_by_the_least_id_that_carries_it(rt: HostRuntime) -> Result<(), Fail> {
    let alloc = rt.alloc();
    let first = pattern_line(refused(alloc, "p#T", vec![in alloc; 1u64]?)?);
    let Some(line) = first else {
        return Err(Fail::new("another end"));
    };
    assert_eq!(rt; line.as_slice(), b"Pattern p#K\n".as_slice());
    let second = pattern_line(refused(alloc, "p#T", vec![in alloc; 2u64]?)?);
    let Some(line) = second else {
        return Err(Fail::new("another end"));
    };
    assert_eq!(rt; line.as_slice(), b"Pattern p#M\n".as_slice());
    Ok(())
}

#[test]
fn a_pattern_that_is_not_reached_is_not_added(rt: HostRuntime) -> Result<(), Fail> {
    let alloc = rt.alloc();
    let Ok(printed) = refused(alloc, "p#T", vec![in alloc; 3u64]?)? else {
        return Err(Fail::new("another end"));
    };
    assert_eq!(rt; printed.as_slice(), b"{}".as_slice());
    Ok(())
}
