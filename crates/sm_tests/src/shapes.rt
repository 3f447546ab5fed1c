// What only tests say of stores of patterns: in which calls they refuse where memory is ample.
use sm_shapes::{LiteralPatterns, PatternRefusal, Patterns, RegexPatterns};
use std::test::Fail;

// A caller that knows its store by the trait alone.
fn add_all<P: Patterns>(patterns: &mut P, texts: &[&str]) -> Result<u32, PatternRefusal> {
    let mut last = 0;
    for text in texts {
        last = patterns.add(*text)?;
    }
    Ok(last)
}

// Whether a pattern that is added here finds a text.
fn finds<P: Patterns>(patterns: &mut P, pattern: &str, text: &str) -> Result<bool, PatternRefusal> {
    let number = patterns.add(pattern)?;
    Ok(patterns.finds(number, text)?)
}

#[test]
fn second_add_is_refused_and_numbers_have_no_gap(rt: HostRuntime) -> Result<(), Fail> {
    let alloc = rt.alloc();
    let mut patterns = LiteralPatterns::new(alloc, vec![in alloc; 2u64]?);
    assert_eq!(rt; add_all(&mut patterns, &["x"]), Ok(0));
    assert_eq!(rt;
        add_all(&mut patterns, &["y", "z"]),
        Err(PatternRefusal::Refused)
    );
    assert_eq!(rt; add_all(&mut patterns, &["z", "w"]), Ok(2));
    Ok(())
}

#[test]
fn texts_that_are_no_regular_expressions_are_refused(rt: HostRuntime) -> Result<(), Fail> {
    let mut patterns = RegexPatterns::new(rt.alloc());
    assert_eq!(rt; finds(&mut patterns, "^a", "ab"), Ok(true));
    assert_eq!(rt; finds(&mut patterns, "^a", "ba"), Ok(false));
    assert_eq!(rt; finds(&mut patterns, "b|\\d", "x7"), Ok(true));
    assert_eq!(rt;
        finds(&mut patterns, "[", "["),
        Err(PatternRefusal::Refused)
    );
    assert_eq!(rt;
        finds(&mut patterns, "(?=a)", "a"),
        Err(PatternRefusal::Refused)
    );
    Ok(())
}
