// Lines of the host, alone or with others.
ghost use Rattle.std.specs.Prelude.{◌≡◌, [], ◌∷◌, IfOk, IsTrue};
ghost use Rattle.annex_model.specs.Messages.{is_word};
ghost use Rattle.registers.specs.Registers.{urls_of, IsKept};
ghost use Rattle.journal_model.specs.Replies.{value_line, creds_line, url_lines};

use ann_key::{Bytes, NoMemory};
use registers::Registers;
use std::alloc::Global;
use wire_msg::HostMsg;

pub(crate) fn value(alloc: Global, value: &[u8]) -> Result<Vec<Bytes>, NoMemory>
    ensures { IfOk result (λ lines. lines.items ≡ value_line value.now ∷ []) }
{
    let mut lines = Vec::new(alloc);
    lines.push(value_line(alloc, value)?)?;
    Ok(lines)
}

pub(crate) fn creds(alloc: Global, user: &[u8], password: &[u8]) -> Result<Vec<Bytes>, NoMemory>
    requires { IsTrue (is_word user.now) }
    ensures { IfOk result (λ lines. lines.items ≡ creds_line (user.now, password.now) ∷ []) }
{
    let line = wire_msg::write_host(alloc, &HostMsg::Creds(user, password))?;
    let mut lines = Vec::new(alloc);
    lines.push(line)?;
    Ok(lines)
}

// One line for each URL of the key that begins with the prefix, and one with an empty value after them.
pub(crate) fn urls(
    alloc: Global,
    registers: &Registers,
    key: &[u8],
    prefix: &[u8],
) -> Result<Vec<Bytes>, NoMemory>
    ensures lines { IfOk result (λ lines. lines.items ≡ url_lines (urls_of registers.now key.now prefix.now)) }
    ensures kept { IsKept registers.now }
{
    let mut lines = Vec::new(alloc);
    for url in registers.urls(key, prefix)? {
        lines.push(value_line(alloc, url)?)?;
    }
    lines.push(value_line(alloc, b"")?)?;
    Ok(lines)
}

fn value_line(alloc: Global, value: &[u8]) -> Result<Bytes, NoMemory>
    ensures { IfOk result (λ line. line ≡ value_line value.now) }
{
    wire_msg::write_host(alloc, &HostMsg::Value(value))
}
