ghost use Rattle.std.specs.Prelude.{◌≡◌, Ok, Err, MatchOption};
ghost use Rattle.image.specs.Judging.{judged};

use crate::bytes::number;
use crate::candidate::Candidate;
use crate::kind::Kind;
use crate::refusal::Refusal;

/// The greatest length of an image.
pub const GREATEST_LENGTH: usize = 65535;

// The least length of bytes that name no kind.
const LEAST_LENGTH: usize = 32;

// A refusal at the place that a test found, where it found one.
fn refuse_at<T, F: FnOnce(T) -> Refusal>(found: Option<T>, refusal: F) -> Result<(), Refusal>
    requires { F.IsAlwaysCallable refusal }
    ensures { MatchOption found (result ≡ Ok tt)
        (λ at. (e : Refusal) × F.post refusal at e × (result ≡ Err e)) }
{
    match found {
        Some(place) => Err(refusal(place)),
        None => Ok(()),
    }
}

/// The kind of an image, or why the bytes are refused: the first failing test decides, then its first failing place.
pub fn judge(bytes: &[u8]) -> Result<Kind, Refusal>
    ensures { result ≡ judged bytes.now }
{
    let kind = Kind::try_from(number(bytes, 0));
    let least = kind.map_or(LEAST_LENGTH, Kind::header_end);
    if !(least..=GREATEST_LENGTH).contains(&bytes.len()) {
        return Err(Refusal::Length);
    }
    let candidate = Candidate { kind: kind?, bytes };
    refuse_at(candidate.bad_number(), Refusal::Header)?;
    refuse_at(
        candidate.misplaced_pair(),
        |pair| Refusal::Pair(usize::from(pair)),
    )?;
    refuse_at(
        candidate.section_of_wrong_length(),
        |pair| Refusal::Section(usize::from(pair)),
    )?;
    refuse_at(candidate.bad_value(), Refusal::Value)?;
    Ok(candidate.kind)
}
