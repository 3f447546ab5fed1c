// What only tests say of the writer of the IDL: that its text is the one of the layout, line by line, that it is written where
// memory is ample, and that it is read as the same model again.
ghost use Rattle.sm_model.specs.Formed.{AreFormed};
ghost use Rattle.sm_model.specs.SaidView.{statements_view};

use sm_ast::read_ast;
use sm_idl::{read_idl, write_idl};
use sm_json::read_tree;
use sm_merge::{MergeRefusal, merge};
use sm_model::{Graph, Statement};
use sm_tree::NoMemory;
use std::alloc::Global;
use std::str;
use std::test::Fail;

const MODEL: &str =
    r#"{"smithy":"2.0","metadata":{"b":[1,{"x":null}],"a \"quoted\"\n":"text\\"},"shapes":{
"m#Suit":{"type":"enum","members":{"HEART":{"target":"smithy.api#Unit"},"CLUB":{"target":"smithy.api#Unit","traits":{"smithy.api#enumValue":"club"}}}},
"m#Choice":{"type":"union","members":{"b":{"target":"m#Count"},"a":{"target":"smithy.api#String"}}},
"m#Count":{"type":"integer","traits":{"smithy.api#range":{"min":0},"smithy.api#documentation":"How many"}},
"m#Find":{"type":"operation","input":{"target":"m#FindInput"},"output":{"target":"smithy.api#Unit"},"errors":[{"target":"m#Gone"},{"target":"n#Lost"}]},
"m#FindInput":{"type":"structure","members":{
"id":{"target":"smithy.api#String","traits":{"smithy.api#required":{},"smithy.api#documentation":"The \"id\".\nNext"}},"String":{"target":"n#String"}}},
"m#Forest":{"type":"resource","identifiers":{"treeId":{"target":"smithy.api#String"},"forestId":{"target":"smithy.api#String"}},
"read":{"target":"m#Find"},"operations":[{"target":"m#Find"}],"resources":[]},
"m#Gone":{"type":"structure","members":{},"traits":{"smithy.api#error":"client"}},
"m#Names":{"type":"list","member":{"target":"m#Suit"}},
"m#Shop":{"type":"service","version":"","operations":[{"target":"m#Find"}],"resources":[{"target":"m#Forest"}],"errors":[],"rename":{"n#String":"Else"}},
"m#Table":{"type":"map","key":{"target":"smithy.api#String"},"value":{"target":"m#Names"}},
"m.x#Other":{"type":"blob"},"n#Lost":{"type":"structure","members":{}},"n#String":{"type":"structure","members":{}}}}"#;

const WRITTEN: &str = r#"$version: "2.0"
metadata "a \"quoted\"\n" = "text\\"
metadata "b" = [1,{"x":null}]
namespace m

union Choice {
    b: m#Count
    a: smithy.api#String
}

@smithy.api#documentation("How many")
@smithy.api#range({"min":0})
integer Count

operation Find {
    input: m#FindInput
    output: smithy.api#Unit
    errors: [m#Gone, n#Lost]
}

structure FindInput {
    @smithy.api#documentation("The \"id\".\nNext")
    @smithy.api#required({})
    id: smithy.api#String
    String: n#String
}

resource Forest {
    identifiers: {"treeId":smithy.api#String,"forestId":smithy.api#String}
    read: m#Find
    operations: [m#Find]
}

@smithy.api#error("client")
structure Gone {
}

list Names {
    member: m#Suit
}

service Shop {
    version: ""
    operations: [m#Find]
    resources: [m#Forest]
    rename: {"n#String":"Else"}
}

enum Suit {
    @smithy.api#enumValue("HEART")
    HEART
    @smithy.api#enumValue("club")
    CLUB
}

map Table {
    key: smithy.api#String
    value: m#Names
}
"#;

const HEAD: &str = r#"$version: "2.0"
metadata "a \"quoted\"\n" = "text\\"
metadata "b" = [1,{"x":null}]
namespace smithy.api
"#;

// The graph of one file.
fn merged(alloc: Global, statements: Vec<Statement>) -> Result<Graph, MergeRefusal>
    requires { AreFormed (statements_view statements.items) }
{
    let mut files = Vec::new(alloc);
    match files.push(statements) {
        Ok(()) => merge(alloc, files.as_slice()),
        Err(_) => Err(MergeRefusal::NoMemory),
    }
}

// What is written for a namespace of the model that these statements merge to; no byte where they merge to none.
fn written_of(
    alloc: Global,
    statements: Vec<Statement>,
    namespace: &str,
) -> Result<Vec<u8>, NoMemory>
    requires { AreFormed (statements_view statements.items) }
{
    match merged(alloc, statements) {
        Ok(graph) => write_idl(alloc, &graph, namespace),
        Err(_) => Ok(Vec::new(alloc)),
    }
}

// What is written for a namespace of the model; no byte where it is none.
fn written(alloc: Global, namespace: &str) -> Result<Vec<u8>, NoMemory> {
    let Ok(tree) = read_tree(alloc, MODEL.as_bytes()) else {
        return Ok(Vec::new(alloc));
    };
    match read_ast(alloc, &tree) {
        Ok(statements) => written_of(alloc, statements, namespace),
        Err(_) => Ok(Vec::new(alloc)),
    }
}

#[test]
fn a_namespace_is_written_line_by_line(rt: HostRuntime) -> Result<(), Fail> {
    let text = written(rt.alloc(), "m")?;
    assert_eq!(rt; str::from_utf8(text.as_slice()), Ok(WRITTEN));
    Ok(())
}

#[test]
fn a_namespace_without_shapes_of_its_own_has_the_head_alone(rt: HostRuntime) -> Result<(), Fail> {
    let text = written(rt.alloc(), "smithy.api")?;
    assert_eq!(rt; str::from_utf8(text.as_slice()), Ok(HEAD));
    Ok(())
}

#[test]
fn what_is_written_is_read_and_written_again(rt: HostRuntime) -> Result<(), Fail> {
    match read_idl(rt.alloc(), WRITTEN) {
        Ok(statements) => {
            let text = written_of(rt.alloc(), statements, "m")?;
            assert_eq!(rt; str::from_utf8(text.as_slice()), Ok(WRITTEN));
        }
        Err(_) => assert!(rt; false),
    }
    Ok(())
}
