//! What a line asks for.
ghost use Rattle.std.specs.Prelude.{◌≡◌, ◌↔◌, ◌≤◌, length, true, Some, None, IfSome};
ghost use Rattle.std.specs.Str.{bytes_eq};
ghost use Rattle.std.specs.Prelude.{codes};
ghost use Rattle.tt_parse.specs.Parse.{is_skipped};
ghost use Rattle.tt_run.specs.Request.{IsRequest, row_request, command_request, request_of};

use std::alloc::Global;
use tt_engine::Request;
use tt_parse::{Command, LineKind, parse_line};
use tt_value::{Refusal, Value};

// What a line asks for; `None` where it is skipped.
pub(crate) fn read_request(alloc: Global, line: &[u8]) -> Option<Request>
    ensures skipped { (result ≡ None) ↔ (is_skipped line.now ≡ true) }
    ensures request { IfSome result (λ request. IsRequest (Some line.now) request) }
{
    match parse_line(alloc, line) {
        LineKind::Skip => None,
        LineKind::Run { session, what } => Some(request_of(session, &what)),
    }
}

fn request_of(session: u8, what: &Result<Command, Refusal>) -> Request
    ensures { result ≡ request_of session what.now }
{
    match what {
        Ok(command) => {
            if session == 1 {
                command_request(command)
            } else {
                Request::Refused(Refusal::NotBuilt)
            }
        }
        Err(refusal) => Request::Refused(*refusal),
    }
}

fn command_request(command: &Command) -> Request
    ensures { result ≡ command_request command.now }
{
    match command {
        Command::Commit => Request::Commit,
        Command::Flush => Request::Flush,
        Command::DurableCommit => Request::DurableCommit,
        Command::Bookmark => Request::Bookmark,
        Command::Insert { table, values } => {
            if table.as_bytes() == b"kv".as_slice() {
                row_request(values.as_slice())
            } else {
                Request::Refused(Refusal::NoTable)
            }
        }
        _ => Request::Refused(Refusal::NotBuilt),
    }
}

// The values of a row of kv: both columns take whole numbers, and no Null.
fn row_request(values: &[Value]) -> Request
    ensures { result ≡ row_request values.now }
{
    match values {
        [Value::Int(key), Value::Int(value)] => Request::Insert {
            key: *key,
            value: *value,
        },
        [Value::Null, Value::Null | Value::Int(_)] | [Value::Int(_), Value::Null] => {
            Request::Refused(Refusal::NullRefused)
        }
        _ => Request::Refused(Refusal::WrongType),
    }
}
