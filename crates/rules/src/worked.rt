ghost use Rattle.std.specs.Prelude.{◌≡◌};
ghost use Rattle.rules.specs.Worked.{Worked, worked_bytes};

/// A small image of rules: one signal on each side, and neither may be on twice in a row. docs/IMAGES.md goes through its bytes.
#[tactic(auto, using(crate::proofs::Example::worked))]
pub fn worked_image() -> [u8; 68]
    ensures value { result ≡ worked_bytes }
    ensures spelled { Worked }
{
    *b"\x02\0\x01\0\x01\0\0\0\x01\0\x01\0\
       \x20\0\x08\0\x28\0\x08\0\x30\0\x06\0\x36\0\x06\0\x3c\0\x08\0\
       \0\0\x01\0\0\0\x01\0\
       \0\0\x02\0\0\0\x02\0\
       \0\0\x01\0\0\0\
       \0\0\x02\0\0\0\
       \0\0\x01\0\
       \0\0\x02\0"
}
