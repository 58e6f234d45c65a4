//! The greeting by which both ends of a connection prove that they know the key.

use byteorder::{BigEndian, ByteOrder};
pub use keyed_hash::CODE;
use keyed_hash::{are_same, code_of};
use sealed_records::Seal;

/// How many bytes are drawn anew by each end for each connection.
pub const NONCE: usize = 32;

/// How many bytes the one who calls greets with under a key: the mark, both numbers, and its nonce.
pub const HELLO: usize = 8 + NONCE;

/// How many bytes it is answered: the mark, the other nonce, and a code.
pub const ANSWER: usize = 4 + NONCE + CODE;

/// How many bytes tell all that both ends said.
const TALK: usize = HELLO + NONCE;

/// The first bytes of both.
pub const MARK: &[u8; 4] = b"TWS2";

/// What each code is made for.
const FOR_NETWORK: &[u8; 1] = b"N";

const FOR_ANSWER: &[u8; 1] = b"A";

const FOR_PROOF: &[u8; 1] = b"P";

const FOR_CALLED: &[u8; 1] = b"C";

const FOR_CALLER: &[u8; 1] = b"R";

/// The key of a network.
#[derive(Clone, Copy)]
pub struct NetworkKey {
    key: [u8; CODE],
}

impl NetworkKey {
    /// The key that a secret text gives.
    pub fn of(secret: &[u8]) -> Self {
        NetworkKey {
            key: code_of(secret, FOR_NETWORK, MARK),
        }
    }

    /// All that was said where this answers this greeting. None where the answer does not prove that who gave it knows the key.
    pub fn answered(&self, hello: &[u8; HELLO], answer: &[u8; ANSWER]) -> Option<Talk> {
        if &answer[..4] != MARK.as_slice() {
            return None;
        }
        let mut nonce = [0u8; NONCE];
        let mut code = [0u8; CODE];
        nonce.copy_from_slice(&answer[4..4 + NONCE]);
        code.copy_from_slice(&answer[4 + NONCE..]);
        let talk = self.talk(hello, &nonce);
        if are_same(&talk.code(FOR_ANSWER), &code) {
            Some(talk)
        } else {
            None
        }
    }

    /// All that is said under the key before the first record.
    pub fn talk(&self, hello: &[u8; HELLO], nonce: &[u8; NONCE]) -> Talk {
        let mut bytes = [0u8; TALK];
        bytes[..HELLO].copy_from_slice(hello);
        bytes[HELLO..].copy_from_slice(nonce);
        Talk {
            key: self.key,
            bytes,
        }
    }
}

/// What two ends said to one another, under their key.
#[derive(Clone, Copy)]
pub struct Talk {
    key: [u8; CODE],
    bytes: [u8; TALK],
}

impl Talk {
    fn code(&self, purpose: &[u8]) -> [u8; CODE] {
        code_of(&self.key, purpose, &self.bytes)
    }

    /// The answer of the one who was called.
    pub fn answer(&self, nonce: &[u8; NONCE]) -> [u8; ANSWER] {
        let mut answer = [0u8; ANSWER];
        answer[..4].copy_from_slice(MARK);
        answer[4..4 + NONCE].copy_from_slice(nonce);
        answer[4 + NONCE..].copy_from_slice(&self.code(FOR_ANSWER));
        answer
    }

    /// The proof of the one who called.
    pub fn proof(&self) -> [u8; CODE] {
        self.code(FOR_PROOF)
    }

    /// Whether this is the proof of the one who called.
    pub fn is_proved(&self, proof: &[u8; CODE]) -> bool {
        are_same(&self.code(FOR_PROOF), proof)
    }

    /// What the one who called goes on with.
    pub fn callers(&self) -> Seals {
        Seals {
            to: Seal::new(self.code(FOR_CALLED)),
            from: Seal::new(self.code(FOR_CALLER)),
        }
    }

    /// What the one who was called goes on with.
    pub fn calleds(&self) -> Seals {
        Seals {
            to: Seal::new(self.code(FOR_CALLER)),
            from: Seal::new(self.code(FOR_CALLED)),
        }
    }
}

/// The greeting of the one who calls.
pub fn hello_of(caller: u16, called: u16, nonce: &[u8; NONCE]) -> [u8; HELLO] {
    let mut hello = [0u8; HELLO];
    hello[..4].copy_from_slice(MARK);
    BigEndian::write_u16(&mut hello[4..6], caller);
    BigEndian::write_u16(&mut hello[6..8], called);
    hello[8..].copy_from_slice(nonce);
    hello
}

/// The numbers of the one who calls and of the one who is called. None where these bytes are no greeting.
pub fn numbers_of(hello: &[u8; HELLO]) -> Option<(u16, u16)> {
    if &hello[..4] != MARK.as_slice() {
        return None;
    }
    Some((
        BigEndian::read_u16(&hello[4..6]),
        BigEndian::read_u16(&hello[6..8]),
    ))
}

/// The records in both directions.
#[derive(Drop)]
pub struct Seals {
    pub to: Seal,
    pub from: Seal,
}
