//! Fields put at the end of bytes.
ghost use Rattle.std.specs.Prelude.{◌≡◌, ◌+◌, ◌≤◌, ◌++◌, length, OnOk, OnErr};
ghost use Rattle.model.specs.Fields.{u8_bytes, u16_bytes, u32_bytes, u64_bytes, i32_bytes, text_bytes};

use base_types::{Bytes, Growing, NoMemory};
use std::mem;

/// Adds a number in one byte. Where memory runs out nothing changes.
pub fn put_u8(out: &mut Bytes, v: u8) -> Result<(), NoMemory>
    ensures ok { OnOk result (out.new ≡ out.old ++ u8_bytes v) }
    ensures err { OnErr result (out.new ≡ out.old) }
{
    put_both(out, &[v], &[])
}

/// Adds a number in two bytes, the highest first. Where memory runs out nothing changes.
pub fn put_u16(out: &mut Bytes, v: u16) -> Result<(), NoMemory>
    ensures ok { OnOk result (out.new ≡ out.old ++ u16_bytes v) }
    ensures err { OnErr result (out.new ≡ out.old) }
{
    put_both(out, &v.to_be_bytes(), &[])
}

/// Adds a number in four bytes, the highest first. Where memory runs out nothing changes.
pub fn put_u32(out: &mut Bytes, v: u32) -> Result<(), NoMemory>
    ensures ok { OnOk result (out.new ≡ out.old ++ u32_bytes v) }
    ensures err { OnErr result (out.new ≡ out.old) }
{
    put_both(out, &v.to_be_bytes(), &[])
}

/// Adds a number in eight bytes, the highest first. Where memory runs out nothing changes.
pub fn put_u64(out: &mut Bytes, v: u64) -> Result<(), NoMemory>
    ensures ok { OnOk result (out.new ≡ out.old ++ u64_bytes v) }
    ensures err { OnErr result (out.new ≡ out.old) }
{
    put_both(out, &v.to_be_bytes(), &[])
}

/// Adds a signed number in four bytes, in two's complement, the highest first. Where memory runs out nothing changes.
pub fn put_i32(out: &mut Bytes, v: i32) -> Result<(), NoMemory>
    ensures ok { OnOk result (out.new ≡ out.old ++ i32_bytes v) }
    ensures err { OnErr result (out.new ≡ out.old) }
{
    put_both(out, &v.to_be_bytes(), &[])
}

/// Adds the length of the text in two bytes, and the text. Where memory runs out nothing changes.
pub fn put_text(out: &mut Bytes, v: &str) -> Result<(), NoMemory>
    requires { length v.now ≤ 4096 }
    ensures ok { OnOk result (out.new ≡ out.old ++ text_bytes v.now) }
    ensures err { OnErr result (out.new ≡ out.old) }
{
    let length = v.len() as u16;
    put_both(out, &length.to_be_bytes(), v.as_bytes())
}

/// Adds the head and then the body, or nothing.
fn put_both(out: &mut Bytes, head: &[u8], body: &[u8]) -> Result<(), NoMemory>
    requires { length head.now + length body.now ≤ 5000 }
    ensures ok { OnOk result (out.new ≡ out.old ++ head.now ++ body.now) }
    ensures err { OnErr result (out.new ≡ out.old) }
{
    let empty = out.empty();
    let mut list = Growing::of_items(mem::replace(out, empty));
    let room = list.reserve((head.len() + body.len()) as u32);
    if room.is_ok() {
        fill(&mut list, head);
        fill(&mut list, body);
    }
    *out = list.into_items();
    room
}

/// Adds bytes for which there is room.
fn fill(list: &mut Growing<u8>, bytes: &[u8])
    requires { length bytes.now ≤ list.old.spare }
    ensures items { list.new.items ≡ list.old.items ++ bytes.now }
    ensures less { list.new.spare + length bytes.now ≡ list.old.spare }
{
    for byte in bytes {
        list.put(*byte);
    }
}
