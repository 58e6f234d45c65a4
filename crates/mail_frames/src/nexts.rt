// Which byte may come next in a content, one byte at a time.
ghost use Rattle.std.specs.Prelude.{◌∷◌, ◌≡◌};
ghost use Rattle.std.specs.Str.{IsUtf8};
ghost use Rattle.mail_frames.specs.Nexts as spec;
ghost use Rattle.mail_frames.specs.Nexts.{IsOpen, Follows, NextAfter};
ghost use Rattle.mail_frames.specs.declared.nexts.Next.TheVariants.{Within};

/// What may come next in a frame's content.
#[derive(Clone, Copy)]
pub enum Next {
    /// Any bytes.
    Any,
    /// This byte, and then any.
    Exactly(u8),
    /// A character of a text.
    Lead,
    /// A byte from the first number to the second, and then so many later bytes of its character.
    Within(u8, u8, u8),
}

/// The first and the last byte that go on with a character, after its second.
const LOW: u8 = 0x80;

const HIGH: u8 = 0xBF;

impl Next {
    /// How many bytes have to come at least.
    pub fn due(self) -> u32
        ensures { result ≡ spec.due self }
    {
        match self {
            Next::Any | Next::Lead => 0,
            Next::Exactly(_) => 1,
            Next::Within(_, _, more) => u32::from(more) + 1,
        }
    }

    /// What may come after this byte. None where it may not come.
    pub fn after(self, byte: u8) -> Option<Next>
        requires { IsOpen self }
        ensures { NextAfter (λ bytes. Follows self (byte ∷ bytes)) result }
    {
        match self {
            Next::Any => Some(Next::Any),
            Next::Exactly(tag) => { if byte == tag { Some(Next::Any) } else { None } }
            Next::Lead => after_lead(byte),
            Next::Within(low, high, more) => after_within(low, high, more, byte),
        }
    }
}

/// What may come after the first byte of a character.
fn after_lead(byte: u8) -> Option<Next>
    ensures { NextAfter (λ bytes. IsUtf8 (byte ∷ bytes)) result }
{
    match byte {
        0x00..=0x7F => Some(Next::Lead),
        0x80..=0xC1 => None,
        0xC2..=0xDF => Some(Next::Within(LOW, HIGH, 0)),
        0xE0 => Some(Next::Within(0xA0, HIGH, 1)),
        0xED => Some(Next::Within(LOW, 0x9F, 1)),
        0xE1..=0xEF => Some(Next::Within(LOW, HIGH, 1)),
        0xF0 => Some(Next::Within(0x90, HIGH, 2)),
        0xF1..=0xF3 => Some(Next::Within(LOW, HIGH, 2)),
        0xF4 => Some(Next::Within(LOW, 0x8F, 2)),
        0xF5..=0xFF => None,
    }
}

/// What may come after a later byte of a character.
fn after_within(low: u8, high: u8, more: u8, byte: u8) -> Option<Next>
    requires { IsOpen (Within low high more) }
    ensures { NextAfter (λ bytes. Follows (Within low high more) (byte ∷ bytes)) result }
{
    if byte < low || high < byte {
        return None;
    }
    if more == 0 {
        return Some(Next::Lead);
    }
    Some(Next::Within(LOW, HIGH, more - 1))
}
