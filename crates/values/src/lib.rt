// Values, payloads, the recorded step and the answer to one. A value is its kind and its number, so that a bad value can be held, tested and refused.
#![tactic(auto)]

ghost use Rattle.std.specs.Prelude.{◌≡◌};
ghost use Rattle.values.specs.Values.{void_v, number_v, full_v, is_void, says_full, is_payload, is_kind, is_mask, is_good, same_value};

#[derive(Clone, Copy, PartialEq, Eq)]
pub struct Value {
    pub kind: u8,
    pub number: u32,
}

impl Value {
    // The two kinds with a number beside them.
    pub const NUMBER: u8 = 1;

    pub const FULL: u8 = 8;

    pub const VOID: Value = Value { kind: 0, number: 0 };

    pub const OK: Value = Value { kind: 2, number: 0 };

    pub const LIMIT: Value = Value { kind: 3, number: 0 };

    pub const NO_DATA: Value = Value { kind: 4, number: 0 };

    pub const TIMEOUT: Value = Value { kind: 5, number: 0 };

    pub const NEVER_RECEIVED: Value = Value { kind: 6, number: 0 };

    pub const INVALID: Value = Value { kind: 7, number: 0 };

    pub const SERVER_ERR: Value = Value { kind: 9, number: 0 };

    // The Number n.
    pub fn of(n: u32) -> Value
        ensures { result ≡ number_v n }
    {
        Value {
            kind: Value::NUMBER,
            number: n,
        }
    }

    // The Full with the mask m.
    pub fn full(m: u32) -> Value
        ensures { result ≡ full_v m }
    {
        Value {
            kind: Value::FULL,
            number: m,
        }
    }

    #[tactic(auto, unfolding(crate::specs::Values::is_void))]
    pub fn is_void(self) -> bool
        ensures { result ≡ is_void self }
    {
        self == Value::VOID
    }

    // A Full, whatever its mask is.
    pub fn says_full(self) -> bool
        ensures { result ≡ says_full self }
    {
        self.kind == Value::FULL
    }

    // Void or a Number.
    #[tactic(auto, unfolding(crate::specs::Values::is_payload))]
    pub fn is_payload(self) -> bool
        ensures { result ≡ is_payload self }
    {
        self.kind == Value::NUMBER || self.is_void()
    }

    // One of the kinds, with a number only where the kind is Number or Full.
    #[tactic(auto, unfolding(crate::specs::Values::is_good))]
    pub fn is_good(self) -> bool
        ensures { result ≡ is_good self }
    {
        match self.kind {
            Value::NUMBER => true,
            Value::FULL => is_mask(self.number),
            k => is_kind(k) && self.number == 0,
        }
    }

    #[tactic(auto, unfolding(crate::specs::Values::same_value))]
    pub fn same(self, v: Value) -> bool
        ensures { result ≡ same_value self v }
    {
        self == v
    }
}

// A kind of value.
#[tactic(auto, unfolding(crate::specs::Values::is_kind))]
fn is_kind(k: u8) -> bool
    ensures { result ≡ is_kind k }
{
    k <= Value::SERVER_ERR.kind
}

// The largest mask: the bits of sixteen required elements.
const LAST_MASK: u32 = 65535;

// A mask that a Full may have.
#[tactic(auto, unfolding(crate::specs::Values::is_mask))]
fn is_mask(m: u32) -> bool
    ensures { result ≡ is_mask m }
{
    0 < m && m <= LAST_MASK
}

// What a table can hold: a kind of part, with the part that stands at an unused place.
pub trait Part: Copy {
    ghost blank: { Self };

    fn blank() -> Self
        ensures { result ≡ blank };
}

impl Part for Value {
    ghost blank = { void_v };

    fn blank() -> Value {
        Value::VOID
    }
}

// A recorded step: its code, who takes it, what it is about, its argument and the answer that it claims.
#[derive(Clone, Copy)]
pub struct Step {
    pub code: u8,
    pub who: u8,
    pub what: u8,
    pub argument: Value,
    pub claim: Value,
}

// The answer to a step: it was taken, with this value, or refused, with this number.
#[derive(Clone, Copy)]
pub enum Answer {
    Taken(Value),
    Refused(u8),
}
