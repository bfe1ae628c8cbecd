ghost use Rattle.std.specs.Prelude.{◌≡◌, true};
ghost use Rattle.image.specs.Opening.{built_in, is_image, opened_kind, opened_bytes, bytes_as};

use crate::judgement::judge;
use crate::kind::Kind;

/// Bytes that are judged to be an image, and its kind.
#[derive(Clone, Copy, PartialEq, Eq, Debug)]
pub struct Judged<'a> {
    kind: Kind,
    bytes: &'a [u8],
    pub ghost lawful: { is_image kind bytes.now ≡ true },
}

impl<'a> Judged<'a> {
    /// Opens the bytes of an image. Bytes that are refused open the built-in table: no caller is trusted to have judged them.
    #[tactic(auto, using(crate::proofs::Sounding::image_of_judged, crate::proofs::Sounding::built_in_lawful))]
    pub fn open(bytes: &'a [u8]) -> Judged<'a>
        ensures kind { result.kind ≡ opened_kind bytes.now }
        ensures bytes { result.bytes.now ≡ opened_bytes bytes.now }
    {
        let Ok(kind) = judge(bytes) else {
            return Judged {
                kind: Kind::Table,
                bytes: built_in(Kind::Table),
            };
        };
        Judged { kind, bytes }
    }

    /// The kind of the image.
    pub fn kind(self) -> Kind
        ensures { result ≡ self.entry.kind }
    {
        self.kind
    }

    /// The bytes of the image if it is of this kind, and otherwise those of the built-in image of the kind: it asks nothing of its
    /// caller.
    #[tactic(auto, using(crate::proofs::Sounding::built_in_lawful))]
    pub fn bytes_as(self, kind: Kind) -> &'a [u8]
        ensures same { result.now ≡ bytes_as kind self.entry.kind self.entry.bytes.now }
        ensures lawful { is_image kind result.now ≡ true }
    {
        if self.kind == kind {
            self.bytes
        } else {
            built_in(kind)
        }
    }
}

// The built-in image of a kind: its numbers, its pairs, and its sections.
fn built_in(kind: Kind) -> &'static [u8]
    ensures { result.now ≡ built_in kind }
{
    match kind {
        Kind::Table => {
            b"\x01\0\x01\0\x01\0\x01\0\x01\0\x01\0\
              \x20\0\x01\0\x21\0\x02\0\x23\0\x01\0\x24\0\x01\0\x25\0\x01\0\
              \0\0\0\0\0\0"
        }
        Kind::Rules => {
            b"\x02\0\x01\0\x01\0\0\0\x01\0\x01\0\
              \x20\0\x08\0\x28\0\0\0\x28\0\0\0\x28\0\0\0\x28\0\0\0\
              \0\0\0\0\0\0\0\0"
        }
    }
}
