//! Message codes under a key: HMAC over SHA-256, and the comparison of codes.
#![tactic(auto)]

ghost use Rattle.std.specs.Prelude.{◌≡◌, ◌↔◌, ◌≤◌, ◌++◌, ◌-◌, IsTrue, length, replicate};
ghost use Rattle.keyed_hash.specs.Hmac.{block_of, hmac_sha256, pad_of};

use sha2::{Digest, Sha256};

/// How many bytes a block of the hash function has.
const BLOCK: usize = 64;

/// How many bytes a code has.
pub const CODE: usize = 32;

/// These bytes, filled with zeros.
fn filled(bytes: &[u8]) -> [u8; BLOCK]
    requires { length bytes.now ≤ 64 }
    ensures { result ≡ bytes.now ++ replicate (64 - length bytes.now) 0 }
{
    let mut block = [0u8; BLOCK];
    block[..bytes.len()].copy_from_slice(bytes);
    block
}

/// The key as one block.
fn block(key: &[u8]) -> [u8; BLOCK]
    ensures { result ≡ block_of key.now }
{
    if key.len() > BLOCK {
        filled(&Sha256::digest(key))
    } else {
        filled(key)
    }
}

/// The block, each of its bytes by exclusive or with this one.
fn pad(block: &[u8; BLOCK], with: u8) -> [u8; BLOCK]
    ensures { result ≡ pad_of with block.now }
{
    let mut out = [0u8; BLOCK];
    for i in 0..BLOCK {
        out[i] = block[i] ^ with;
    }
    out
}

/// The code of a message under a key, the message in two parts.
pub fn code_of(key: &[u8], head: &[u8], body: &[u8]) -> [u8; CODE]
    ensures { result ≡ hmac_sha256 key.now (head.now ++ body.now) }
{
    let block = block(key);
    let mut inner = Sha256::new();
    inner.update(pad(&block, 0x36));
    inner.update(head);
    inner.update(body);
    let inner = inner.finalize();
    let mut outer = Sha256::new();
    outer.update(pad(&block, 0x5C));
    outer.update(inner);
    outer.finalize()
}

/// Whether two codes are the same. Each byte is looked at, whatever the bytes before it are.
pub fn are_same(one: &[u8; CODE], other: &[u8; CODE]) -> bool
    ensures { IsTrue result ↔ (one.now ≡ other.now) }
{
    let mut different = 0u32;
    for i in 0..CODE {
        different += u32::from(one[i] != other[i]);
    }
    different == 0
}
