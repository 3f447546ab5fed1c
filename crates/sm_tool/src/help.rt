// What `--help` prints: of the program, and of each command.

/// What `--version` prints.
pub const VERSION: &str = "sm_tool 0.1.0\n";

/// What `--help` prints.
pub const HELP: &str = "\
sm_tool body MODELFILE SHAPE NEAR FAR
    Reads a body of the shape from standard input in the form NEAR, and prints it in the form FAR: json or cbor.
sm_tool check MODEL..
    Prints the events of model files by the rules of models: SEVERITY ID SHAPE DETAIL, one a line.
sm_tool convert MODEL.. FORM
    Merges model files, and prints their graph: as a text of the JSON AST (ast), or a namespace of it in the IDL (idl:NAMESPACE).
sm_tool cross MODEL.. SERVICE FRONT BACK HOST BACKFILE OUTFILE
    Runs a gateway between two protocols of a service: requests from standard input, answers of the back from a file.
sm_tool schema MODELFILE SHAPE NAMES [described]
    Prints the JSON Schema of the shape, by the names of members or their JSON names: members or json.
sm_tool select MODEL.. SELECTOR
    Prints the ids of the shapes and members that a selector picks in their graph.
sm_tool serve MODEL.. SERVICE FRONT BACK HOST LISTEN CONNECT COUNT
    Serves a gateway between two protocols of a service over TCP: so many connections, one after the other.
sm_tool transform MODEL.. VERB ARG
    Prints the graph of model files after a change: a part of it, it without a part, or with another name of a namespace.
sm_tool COMMAND --help
    Says more of a command, with an example and its statuses.
sm_tool --help
sm_tool --version
";

const BODY: &str = "\
sm_tool body MODELFILE SHAPE NEAR FAR
    Reads a body of the shape from standard input in the form NEAR, and prints it in the form FAR.

MODELFILE  one model file: the JSON AST where its name ends in .json, else the IDL
SHAPE      the id of a shape that has values, as shop#Item or smithy.api#String
NEAR, FAR  json or cbor

    $ printf '{ \"total\": -7, \"id\": \"a\\\\u0062\" }' | sm_tool body shop.json shop#Item json json
    {\"id\":\"ab\",\"total\":-7}

status 0  the body is printed
       1  the model, the shape or the body is refused: a line says why
       2  the words have no form            3  a file or the input can't be read
       4  the output can't be written       5  memory ran out
       6  a pattern of the shape is no regular expression that is known here
       7  a limit is passed: a file of 4,194,304 bytes, a body of 1,048,576, or one on the size of a model
";

const CHECK: &str = "\
sm_tool check MODEL..
    Prints every event of the model that the files say, by the rules of models: SEVERITY ID SHAPE DETAIL, one a line.

MODEL  a model file: the JSON AST where its name ends in .json, else the IDL; 64 at most

    $ sm_tool check bad.smithy
    ERROR Constraint.Bounds bad#S length
    ERROR Target.Missing bad#T$id bad#Nope

status 0  no event is an ERROR, and the model is as it should be
       1  some event is, or a file is no model: a line says where
       2  the words have no form            3  a file can't be read
       4  the output can't be written       5  memory ran out
       7  a limit is passed: 64 files, 4,194,304 bytes of a file, 33,554,432 of all, or one on the size of a model
";

const CONVERT: &str = "\
sm_tool convert MODEL.. FORM
    Merges model files, and prints the graph that they say as one canonical text.

MODEL  a model file: the JSON AST where its name ends in .json, else the IDL; 64 at most
FORM   ast for the JSON AST, idl:NAMESPACE for a namespace of it in the IDL

    $ sm_tool convert shop.json idl:shop
    $version: \"2.0\"
    namespace shop
    ..

status 0  the text is printed
       1  a file is no model, or the model is rejected: a line says why
       2  the words have no form            3  a file can't be read
       4  the output can't be written       5  memory ran out
       7  a limit is passed: 64 files, 4,194,304 bytes of a file, 33,554,432 of all, or one on the size of a model
";

const CROSS: &str = "\
sm_tool cross MODEL.. SERVICE FRONT BACK HOST BACKFILE OUTFILE
    Runs a session of a gateway: requests in the protocol FRONT are read from standard input, and their answers printed; each crosses
    as a request in the protocol BACK, written to OUTFILE, whose answer is the next in BACKFILE.

MODEL        a model file: the JSON AST where its name ends in .json, else the IDL; 64 at most
SERVICE      the id of a service of the model, as shop#Shop
FRONT, BACK  awsJson1_0, awsJson1_1, restJson1 or rpcv2Cbor
HOST         the host that requests to the back name: 1 to 255 visible characters of ASCII

    $ sm_tool cross shop.smithy shop#Shop awsJson1_1 rpcv2Cbor back.example answers requests < session
    HTTP/1.1 200 OK
    content-type: application/x-amz-json-1.1
    ..

status 0  the session was closed: refused requests and answers are answered in it
       1  the model or the service is refused: a line says why; or the front or the back ended inside a message or sent what is none
       2  the words have no form            3  a file or the input can't be read
       4  the output or OUTFILE can't be written
       5  memory ran out
       6  a pattern of the service is no regular expression that is known here
       7  a limit is passed: 64 files, 4,194,304 bytes of a file, 33,554,432 of all models, one on the size of a model, 1,000,000 turns
";

const SCHEMA: &str = "\
sm_tool schema MODELFILE SHAPE NAMES [described]
    Prints the JSON Schema (2020-12) of the shape: it accepts the bodies that body reads, as far as a schema can say it.

MODELFILE  one model file: the JSON AST where its name ends in .json, else the IDL
SHAPE      the id of a shape that has values, as shop#Item or smithy.api#String
NAMES      members for the names of members, json for their JSON names (the jsonName trait)
described  behind them: with titles, documentation, defaults and what is deprecated, which refuse nothing

    $ sm_tool schema shop.json smithy.api#Byte members
    {\"$schema\":\"https://json-schema.org/draft/2020-12/schema\",\"$ref\":\"#/$defs/d0\",..

status 0  the schema is printed
       1  the model or the shape is refused: a line says why
       2  the words have no form            3  a file can't be read
       4  the output can't be written       5  memory ran out
       6  a pattern of the shape is no regular expression that is known here
       7  a limit is passed: a file of 4,194,304 bytes, or one on the size of a model
";

const SELECT: &str = "\
sm_tool select MODEL.. SELECTOR
    Prints the ids of the shapes and members that a selector picks in the graph of model files, one a line.

MODEL     a model file: the JSON AST where its name ends in .json, else the IDL; 64 at most
SELECTOR  a selector (Smithy 2.0, \"Selectors\"), as one word of the command line

    $ sm_tool select shop.json 'member[trait|required]'
    shop#Item$id

status 0  the ids are printed, of which there may be none
       1  a file is no model, the model is rejected, or the last word is no selector: a line says why
       2  the words have no form            3  a file can't be read
       4  the output can't be written       5  memory ran out
       7  a limit is passed: 64 files, 4,194,304 bytes of a file, 33,554,432 of all, or one on the size of a model
";

const SERVE: &str = "\
sm_tool serve MODEL.. SERVICE FRONT BACK HOST LISTEN CONNECT COUNT
    Listens, and serves connections one after the other: requests in the protocol FRONT are answered, each through one request in the
    protocol BACK over a connection of its own to the back.

MODEL        a model file: the JSON AST where its name ends in .json, else the IDL; 64 at most
SERVICE      the id of a service of the model, as shop#Shop
FRONT, BACK  awsJson1_0, awsJson1_1, restJson1 or rpcv2Cbor
HOST         the host that requests to the back name: 1 to 255 visible characters of ASCII
LISTEN       the address to listen on, as 127.0.0.1:8080, [::1]:8080 or localhost:0 (a port of 0 is chosen, and told on standard error)
CONNECT      the address of the back
COUNT        how many connections are served: 1 to 1,000,000

    $ sm_tool serve shop.smithy shop#Shop awsJson1_1 rpcv2Cbor back.example 127.0.0.1:8080 127.0.0.1:9000 1000000

Nothing is printed. A back that can't be reached, and one that fails, is told of in a line on standard error, and serving goes on.
docs/OPERATIONS.md says how long it waits for whom, and how several processes serve behind a proxy.

status 0  all connections were served
       1  the model, the service or a protocol is refused: cross says why
       2  the words have no form            3  a file can't be read, the address can't be listened on, or no connection comes any more
       5  memory ran out
       6  a pattern of the service is no regular expression that is known here
       7  a limit on the models is passed
";

const TRANSFORM: &str = "\
sm_tool transform MODEL.. VERB ARG
    Prints the graph of model files after a change, as a text of the JSON AST.

MODEL     a model file: the JSON AST where its name ends in .json, else the IDL; 64 at most
VERB ARG  include SELECTOR  keeps what the selector picks, with all that it needs
          exclude SELECTOR  takes out what the selector picks, and all that can't be without it
          rename A=B        gives the namespace A the name B
SELECTOR  a selector (Smithy 2.0, \"Selectors\"), as one word of the command line

    $ sm_tool transform shop.json exclude 'member[trait|required]'
    {\"smithy\":\"2.0\",\"shapes\":{\"shop#Item\":{\"type\":\"structure\",\"members\":{\"total\":{\"target\":\"smithy.api#Long\"}}}}}

status 0  the text is printed
       1  a file is no model, the model is rejected, the text is no selector, A can't be renamed, or the result is rejected: a line says why
       2  the words have no form            3  a file can't be read
       4  the output can't be written       5  memory ran out
       7  a limit is passed: 64 files, 4,194,304 bytes of a file, 33,554,432 of all, or one on the size of a model
";

/// What a command says of itself.
pub fn help_of(command: &str) -> Option<&'static str> {
    match command {
        "body" => Some(BODY),
        "check" => Some(CHECK),
        "convert" => Some(CONVERT),
        "cross" => Some(CROSS),
        "schema" => Some(SCHEMA),
        "select" => Some(SELECT),
        "serve" => Some(SERVE),
        "transform" => Some(TRANSFORM),
        _ => None,
    }
}

/// The form of the words of a command; where there is no such command, those of the program.
pub fn usage_of(command: &str) -> &'static str {
    match command {
        "body" => "sm_tool body MODELFILE SHAPE NEAR FAR, where NEAR and FAR are json or cbor",
        "check" => "sm_tool check MODEL..",
        "convert" => "sm_tool convert MODEL.. FORM, where FORM is ast, or idl: and a namespace",
        "cross" =>
            "sm_tool cross MODEL.. SERVICE FRONT BACK HOST BACKFILE OUTFILE, where FRONT and BACK are protocols, as awsJson1_1",
        "schema" =>
            "sm_tool schema MODELFILE SHAPE NAMES [described], where NAMES is members or json",
        "select" => "sm_tool select MODEL.. SELECTOR",
        "serve" =>
            "sm_tool serve MODEL.. SERVICE FRONT BACK HOST LISTEN CONNECT COUNT, where FRONT and BACK are protocols, as awsJson1_1",
        "transform" =>
            "sm_tool transform MODEL.. VERB ARG, where VERB is include, exclude or rename, and ARG a selector, or A=B",
        _ =>
            "sm_tool body, check, convert, cross, schema, select, serve or transform and its words; sm_tool --help lists them",
    }
}
