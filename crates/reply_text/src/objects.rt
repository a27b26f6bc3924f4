// Replies as JSON.
ghost use Rattle.std.specs.Prelude.{◌≡◌, ◌++◌, codes, map, string_bytes, OnOk, IfOk};
ghost use Rattle.reply_text.specs.Answer.{answer_text};
ghost use Rattle.reply_text.specs.Json.{json_object, json_reply};
ghost use Rattle.reply_text.specs.Plain.{IsPlain};
ghost use Rattle.serde_json.specs.Data.{number, unsigned, string, object, member, no_members};
ghost use Rattle.serde_json.specs.View.{view};
ghost use Rattle.reply_text.specs.Text.{json_text};

use crate::answer::push_answer;
use plain_types::{Answer, Replied};
use serde_json::{Value, json};
use std::alloc::{AllocError, Global};

// The text of bytes that JSON writes as they are.
fn string_of(bytes: Vec<u8>) -> String
    requires { IsPlain bytes.items }
    ensures { string_bytes result ≡ bytes.items }
{
    match String::from_utf8(bytes) {
        Ok(text) => text,
        Err(_) => unreachable!(),
    }
}

// An answer as text. It has no byte that JSON would write in another way.
fn answer_string(alloc: Global, answer: &Answer) -> Result<String, AllocError>
    ensures text { IfOk result (λ text. string_bytes text ≡ answer_text answer.now) }
    ensures plain { OnOk result (IsPlain (answer_text answer.now)) }
{
    let mut text = Vec::new(alloc);
    push_answer(alloc, &mut text, answer)?;
    Ok(string_of(text))
}

// The object of a reply to this line of this client.
fn object_of(alloc: Global, client: u8, line: u32, text: String) -> Result<Value, AllocError>
    ensures { IfOk result (λ value. view value
        ≡ object (member (codes "client") (number (unsigned client))
        (member (codes "line") (number (unsigned line))
        (member (codes "reply") (string (string_bytes text)) no_members)))) }
{
    json!(in alloc; {"client": client, "line": line, "reply": text})
}

// The text of a reply as an object.
fn object_string(alloc: Global, reply: &Replied) -> Result<String, AllocError>
    ensures { IfOk result (λ text. string_bytes text ≡ json_object reply.now) }
{
    let text = answer_string(alloc, &reply.answer)?;
    let value = object_of(alloc, reply.client, reply.line, text)?;
    value.to_string(alloc)
}

// The text of the last object.
fn last_string(alloc: Global) -> Result<String, AllocError>
    ensures { IfOk result (λ text. string_bytes text ≡ codes "{\"done\":true}") }
{
    json!(in alloc; {"done": true})?.to_string(alloc)
}

fn push_json_reply(alloc: Global, out: &mut Vec<u8>, reply: &Replied) -> Result<(), AllocError>
    ensures { OnOk result (out.new.items ≡ out.old.items ++ json_reply reply.now) }
{
    let object = object_string(alloc, reply)?;
    out.extend_from_slice(object.as_bytes())?;
    out.push(b'\n')?;
    Ok(())
}

fn push_last(alloc: Global, out: &mut Vec<u8>) -> Result<(), AllocError>
    ensures { OnOk result (out.new.items ≡ out.old.items ++ codes "{\"done\":true}\n") }
{
    let object = last_string(alloc)?;
    out.extend_from_slice(object.as_bytes())?;
    out.push(b'\n')?;
    Ok(())
}

// Puts the replies behind a text, each as an object, and a last object.
pub(crate) fn push_json(
    alloc: Global,
    out: &mut Vec<u8>,
    replies: &[&Replied],
) -> Result<(), AllocError>
    ensures { OnOk result (out.new.items ≡ out.old.items
        ++ json_text (map (λ reply. reply.now) replies.now)) }
{
    for reply in replies {
        push_json_reply(alloc, out, reply)?;
    }
    push_last(alloc, out)
}
