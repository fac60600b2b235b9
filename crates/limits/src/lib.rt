// The limits of documents 01 and 02, and the refusals: one place for both.
#![tactic(auto)]

ghost use Rattle.std.specs.Prelude.{◌≡◌};
ghost use Rattle.limits.specs.Refusals.{refusal_number};

// The longest header, allow attribute, sandbox attribute and tidied form, in bytes.
pub const TEXT_BYTES: usize = 4096;

// The most documents that are loaded at one time.
pub const DOCUMENTS: usize = 64;

// The last serial that is given.
pub const LAST_SERIAL: u32 = 4_294_967_295;

// The longest host, in bytes.
pub const HOST_BYTES: usize = 253;

// The greatest port, and the most digits of an expression's port.
pub const LAST_PORT: u32 = 65_535;

pub const PORT_DIGITS: usize = 5;

// Why a call is refused, by the number that document 01 gives it: the table of "The table of loaded documents".
#[derive(Clone, Copy, PartialEq, Eq)]
pub enum Refusal {
    NotLoaded = 1,
    NoSuchFeature = 2,
    BadOrigin = 3,
    TooLong = 4,
    Sandbox = 5,
    Full = 6,
    Spent = 7,
    NotADictionary = 8,
    Small = 9,
}

// The number that document 01 gives a refusal.
pub fn refusal_number(r: Refusal) -> u32
    ensures { result ≡ refusal_number r }
{
    r as u32
}

impl From<Refusal> for u32 {
    ghost from_gives = { λ r n. n ≡ refusal_number r };

    fn from(r: Refusal) -> u32 {
        refusal_number(r)
    }
}
