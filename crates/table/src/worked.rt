ghost use Rattle.std.specs.Prelude.{◌≡◌};
ghost use Rattle.table.specs.Worked.{Worked, worked_bytes};

/// The smallest telling image: a table of two states where reply y leads to state y. docs/IMAGES.md goes through its bytes.
#[tactic(auto, using(crate::proofs::Example::worked))]
pub fn worked_image() -> [u8; 48]
    ensures value { result ≡ worked_bytes }
    ensures spelled { Worked }
{
    *b"\x01\0\x02\0\x01\0\x02\0\x01\0\x01\0\
       \x20\0\x02\0\x22\0\x08\0\x2a\0\x02\0\x2c\0\x02\0\x2e\0\x02\0\
       \x01\x01\
       \0\0\x01\0\0\0\x01\0\
       \x01\x01\
       \0\x01\
       \x01\0"
}
