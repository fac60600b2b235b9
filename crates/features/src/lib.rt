// The seventeen features: their numbers, names and default allowlists.
#![tactic(auto)]

ghost use Rattle.std.specs.Prelude.{◌≡◌, [], ◌∷◌, ◌+◌, ◌^◌, ◌<◌, ◌≤◌, length};
ghost use Rattle.ascii.specs.Texts.{same_bytes};
ghost use Rattle.features.specs.Features.{name_of, default_of};
ghost use Rattle.features.specs.Discarding.{left_to_compare};
ghost use Rattle.features.specs.Packing.{four_at, front_of, back_of};
ghost use Rattle.features.specs.Answers.{name_bytes, default_in, left_in, IsPacked, OnlyNumber, IsLookup};

// How many features there are.
pub const COUNT: usize = 17;

// The longest name, in bytes.
pub const NAME_BYTES: usize = 33;

// The default allowlist of a feature: `*`, or `self`.
#[derive(Clone, Copy, PartialEq, Eq)]
pub enum DefaultAllowlist {
    All,
    SelfOnly,
}

// A feature's name, and its default allowlist.
#[derive(Clone, Copy)]
pub struct Feature {
    pub name: &'static [u8],
    pub default: DefaultAllowlist,
}

// Document 01's list: a feature's number is its place.
pub static FEATURES: [Feature; COUNT] = [
    Feature {
        name: b"camera",
        default: DefaultAllowlist::SelfOnly,
    },
    Feature {
        name: b"display-capture",
        default: DefaultAllowlist::SelfOnly,
    },
    Feature {
        name: b"downloads-without-user-activation",
        default: DefaultAllowlist::All,
    },
    Feature {
        name: b"forms",
        default: DefaultAllowlist::All,
    },
    Feature {
        name: b"fullscreen",
        default: DefaultAllowlist::SelfOnly,
    },
    Feature {
        name: b"geolocation",
        default: DefaultAllowlist::SelfOnly,
    },
    Feature {
        name: b"microphone",
        default: DefaultAllowlist::SelfOnly,
    },
    Feature {
        name: b"modals",
        default: DefaultAllowlist::All,
    },
    Feature {
        name: b"orientation-lock",
        default: DefaultAllowlist::All,
    },
    Feature {
        name: b"payment",
        default: DefaultAllowlist::SelfOnly,
    },
    Feature {
        name: b"plugins",
        default: DefaultAllowlist::All,
    },
    Feature {
        name: b"pointer-lock",
        default: DefaultAllowlist::All,
    },
    Feature {
        name: b"popups",
        default: DefaultAllowlist::All,
    },
    Feature {
        name: b"presentation",
        default: DefaultAllowlist::All,
    },
    Feature {
        name: b"scripts",
        default: DefaultAllowlist::All,
    },
    Feature {
        name: b"top-navigation",
        default: DefaultAllowlist::All,
    },
    Feature {
        name: b"usb",
        default: DefaultAllowlist::SelfOnly,
    },
];

// The name of a feature; empty for a number over 16.
#[tactic(auto, unfolding(crate::specs::Computing::computing), using(crate::proofs::Laws::name_lengths))]
pub fn name_of(n: u32) -> &'static [u8]
    ensures name { result.now ≡ name_of n }
    ensures within { length result.now ≤ name_bytes }
{
    let n = n as usize;
    if n < COUNT { FEATURES[n].name } else { b"" }
}

// The default allowlist of a feature; none for a number over 16.
#[tactic(auto, unfolding(crate::specs::Computing::computing))]
pub fn default_of(n: u32) -> Option<DefaultAllowlist>
    ensures { default_in result ≡ default_of n }
{
    let n = n as usize;
    if n < COUNT {
        Some(FEATURES[n].default)
    } else {
        None
    }
}

// Four bytes as one number, little-endian; the compiler makes one load of it.
fn four(s: &[u8], at: usize) -> u64
    requires { at + 4 ≤ length s.now }
    ensures { (result ≡ four_at s.now at) × (result < 2 ^ 32) }
{
    u64::from(u32::from_le_bytes([s[at], s[at + 1], s[at + 2], s[at + 3]]))
}

// The first four bytes of a word, and the next four or, in a word of fewer than eight, the last four.
fn front(word: &[u8]) -> u64
    requires { 4 ≤ length word.now }
    ensures { result ≡ front_of word.now }
{
    let at = (word.len() - 4).min(4);
    four(word, 0) + 4_294_967_296 * four(word, at)
}

// The third four bytes or, in a word of fewer than twelve, the last four; and the last four. With `front`: every byte of a word of 4 to 16.
fn back(word: &[u8]) -> u64
    requires { 4 ≤ length word.now }
    ensures { result ≡ back_of word.now }
{
    let last = word.len() - 4;
    let at = last.min(8);
    four(word, at) + 4_294_967_296 * four(word, last)
}

// A name in numbers: its length, its third byte, and `front` and `back`, all its bytes if it has 4 to 16.
#[derive(Clone, Copy)]
struct Packed {
    len: usize,
    third: u8,
    front: u64,
    back: u64,
}

// The names in numbers, as they stand in the list.
static PACKED: [Packed; COUNT] = [
    // camera
    Packed {
        len: 6,
        third: b'm',
        front: 0x6172_656d_656d_6163,
        back: 0x6172_656d_6172_656d,
    },
    // display-capture
    Packed {
        len: 15,
        third: b's',
        front: 0x2d79_616c_7073_6964,
        back: 0x6572_7574_7470_6163,
    },
    // downloads-without-user-activation
    Packed {
        len: 33,
        third: b'w',
        front: 0x6461_6f6c_6e77_6f64,
        back: 0x6e6f_6974_6977_2d73,
    },
    // forms
    Packed {
        len: 5,
        third: b'r',
        front: 0x736d_726f_6d72_6f66,
        back: 0x736d_726f_736d_726f,
    },
    // fullscreen
    Packed {
        len: 10,
        third: b'l',
        front: 0x6572_6373_6c6c_7566,
        back: 0x6e65_6572_6e65_6572,
    },
    // geolocation
    Packed {
        len: 11,
        third: b'o',
        front: 0x7461_636f_6c6f_6567,
        back: 0x6e6f_6974_6e6f_6974,
    },
    // microphone
    Packed {
        len: 10,
        third: b'c',
        front: 0x6f68_706f_7263_696d,
        back: 0x656e_6f68_656e_6f68,
    },
    // modals
    Packed {
        len: 6,
        third: b'd',
        front: 0x736c_6164_6164_6f6d,
        back: 0x736c_6164_736c_6164,
    },
    // orientation-lock
    Packed {
        len: 16,
        third: b'i',
        front: 0x7461_746e_6569_726f,
        back: 0x6b63_6f6c_2d6e_6f69,
    },
    // payment
    Packed {
        len: 7,
        third: b'y',
        front: 0x746e_656d_6d79_6170,
        back: 0x746e_656d_746e_656d,
    },
    // plugins
    Packed {
        len: 7,
        third: b'u',
        front: 0x736e_6967_6775_6c70,
        back: 0x736e_6967_736e_6967,
    },
    // pointer-lock
    Packed {
        len: 12,
        third: b'i',
        front: 0x2d72_6574_6e69_6f70,
        back: 0x6b63_6f6c_6b63_6f6c,
    },
    // popups
    Packed {
        len: 6,
        third: b'p',
        front: 0x7370_7570_7570_6f70,
        back: 0x7370_7570_7370_7570,
    },
    // presentation
    Packed {
        len: 12,
        third: b'e',
        front: 0x6174_6e65_7365_7270,
        back: 0x6e6f_6974_6e6f_6974,
    },
    // scripts
    Packed {
        len: 7,
        third: b'r',
        front: 0x7374_7069_6972_6373,
        back: 0x7374_7069_7374_7069,
    },
    // top-navigation
    Packed {
        len: 14,
        third: b'p',
        front: 0x6976_616e_2d70_6f74,
        back: 0x6e6f_6974_6974_6167,
    },
    // usb
    Packed {
        len: 3,
        third: b'b',
        front: 0x0062_7375_0062_7375,
        back: 0x0062_7375_0062_7375,
    },
];

// A name in numbers; all 0 for a number over 16.
#[tactic(auto, unfolding(crate::specs::Computing::computing))]
fn packed_name(n: u32) -> Packed
    ensures { IsPacked n result }
{
    let n = n as usize;
    if n < COUNT {
        PACKED[n]
    } else {
        Packed {
            len: 0,
            third: 0,
            front: 0,
            back: 0,
        }
    }
}

// The numbers of the names of up to 8 bytes, a byte each, by the sum of length and third byte modulo 8.
const SHORT_NUMBERS: u64 = 0x030c_100a_0007_0e09;

// Those of the longer names, four bits each, by that sum modulo 16.
const LONG_NUMBERS: u64 = 0x0f60_0582_04b0_01d0;

// The only number that a name with this length and this third byte may have; any number where no name has them.
fn only_number(len: usize, third: u8) -> u32
    ensures { OnlyNumber len third result }
{
    let sum = len % 16 + third as usize; // `% 16` keeps the sum small and changes neither remainder
    if len <= 8 {
        ((SHORT_NUMBERS >> (8 * (sum % 8))) % 256) as u32
    } else {
        ((LONG_NUMBERS >> (4 * (sum % 16))) % 16) as u32
    }
}

// The names that have a word's length and third byte: at most one. Every other name is discarded.
#[tactic(auto, using(crate::proofs::Names::left))]
pub fn left_to_compare(word: &[u8]) -> Option<u32>
    ensures { left_in result ≡ left_to_compare word.now }
{
    let len = word.len();
    if len < 3 {
        return None;
    }
    let third = word[2];
    let n = only_number(len, third);
    let name = packed_name(n);
    if (name.len == len) & (name.third == third) {
        Some(n)
    } else {
        None
    }
}

// Whether a word is the name that is left to compare with it.
fn is_named(n: u32, word: &[u8]) -> bool
    requires { n ∷ [] ≡ left_to_compare word.now }
    ensures { result ≡ same_bytes word.now (name_of n) }
{
    if word.len() < 4 {
        ascii::same(word, b"usb")
    } else if 16 < word.len() {
        ascii::same(word, b"downloads-without-user-activation")
    } else {
        let name = packed_name(n);
        (front(word) == name.front) & (back(word) == name.back)
    }
}

// The feature of a name, compared byte for byte. The word may be a part of any text.
#[tactic(auto, using(crate::proofs::Names::lookups))]
pub fn feature_of(word: &[u8]) -> Option<u32>
    ensures { IsLookup word.now result }
{
    let n = left_to_compare(word)?;
    if is_named(n, word) { Some(n) } else { None }
}
