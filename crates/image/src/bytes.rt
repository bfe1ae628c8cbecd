ghost use Rattle.std.specs.Prelude.{◌≡◌, ◌<◌};
ghost use Rattle.image.specs.Bytes.{byte_at, number_at};
ghost use Rattle.image.specs.Format.{section_at, section_size, state_bits_of};

/// Where a table tells how many states it has.
pub const STATES: usize = 2;

/// Where a table tells how many inputs it has.
pub const INPUTS: usize = 4;

/// Where a table tells how many replies it has.
pub const REPLIES: usize = 6;

/// Where rules tell how many input signals they have.
pub const INPUT_BITS: usize = 2;

/// Where rules tell how many output signals they have.
pub const OUTPUT_BITS: usize = 4;

/// Where an image tells how many assumption sets it has.
pub const ASSUMPTION_SETS: usize = 8;

/// Where an image tells how many guarantee sets it has.
pub const GUARANTEE_SETS: usize = 10;

// The byte at an offset. What lies past the end counts as 0.
pub(crate) fn byte(bytes: &[u8], at: usize) -> u8
    ensures { result ≡ byte_at bytes.now at }
{
    bytes.get(at).copied().unwrap_or(0)
}

/// The number at an offset: two bytes, low byte first. What lies past the end counts as 0.
pub fn number(bytes: &[u8], at: usize) -> u16
    ensures { result ≡ number_at bytes.now at }
{
    match bytes.get(at..at.saturating_add(2)) {
        Some([low, high]) => u16::from_le_bytes([*low, *high]),
        _ => u16::from(byte(bytes, at)),
    }
}

/// A pair of the header: where its section begins, and how many bytes it has. It is no slice, since a pair is read before its section
/// is known to lie in the image.
#[derive(Clone, Copy, PartialEq, Eq, Debug)]
pub struct Section {
    /// Where it begins.
    pub offset: usize,
    /// How many bytes it has.
    pub size: usize,
}

impl Section {
    /// The pair of this number.
    pub fn read(bytes: &[u8], pair: u8) -> Section
        ensures begins { result.offset ≡ section_at bytes.now pair }
        ensures sized { result.size ≡ section_size bytes.now pair }
        ensures small { (result.offset < 65536) × (result.size < 65536) }
    {
        let at = 12 + 4 * usize::from(pair);
        Section {
            offset: usize::from(number(bytes, at)),
            size: usize::from(number(bytes, at + 2)),
        }
    }
}

// How many bits a state of rules has.
pub(crate) fn state_bits(bytes: &[u8]) -> u32
    ensures { result ≡ state_bits_of bytes.now }
{
    u32::from(number(bytes, INPUT_BITS)) + u32::from(number(bytes, OUTPUT_BITS))
}
