// What is printed of a reply.
use kit_async_model::Reply;
use kit_serve::kit::{Asked, Values};
use std::alloc::AllocError;
use std::str;

// The bytes as text, or a mark where they are none.
fn text(bytes: &[u8]) -> &str {
    str::from_utf8(bytes).unwrap_or("?")
}

/// Adds the reply after a mark.
pub(crate) fn tell(out: &mut String, reply: &Reply) -> Result<(), AllocError> {
    match reply {
        Reply::Done => write!(out, " => done"),
        Reply::Last => write!(out, " => last"),
        Reply::Wait => write!(out, " => wait"),
        Reply::Over => write!(out, " => over"),
        Reply::Odd => write!(out, " => odd"),
        Reply::Unsaid => write!(out, " => unsaid"),
        Reply::Broken => write!(out, " => broken"),
        Reply::Work(asked) => tell_work(out, asked),
        Reply::Line(line) => write!(out, " => line {}", text(line.view())),
    }
}

fn tell_values(out: &mut String, word: &str, values: &Values) -> Result<(), AllocError> {
    write!(out, " => {word}")?;
    for value in values.view() {
        write!(out, " {}", text(value.view()))?;
    }
    Ok(())
}

fn tell_work(out: &mut String, asked: &Asked) -> Result<(), AllocError> {
    match asked {
        Asked::Prepare(values) => tell_values(out, "prepare", values),
        Asked::Initialize(values) => tell_values(out, "initialize", values),
        Asked::Store(key, file) => {
            let key = text(key.view().text());
            write!(out, " => store {key} {}", file.view())
        }
        Asked::Retrieve(key, file) => {
            let key = text(key.view().text());
            write!(out, " => retrieve {key} {}", file.view())
        }
        Asked::Check(key) => write!(out, " => check {}", text(key.view().text())),
        Asked::Remove(key) => write!(out, " => remove {}", text(key.view().text())),
    }
}
