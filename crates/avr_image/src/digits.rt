ghost use Rattle.std.specs.Prelude.{◌≡◌, ◌+◌, ◌<◌, ◌≤◌, ◌++◌, drop, false};
ghost use Rattle.std.specs.Fmt.{digits};
ghost use Rattle.arrayvec.specs.ArrayVec.{array_vec_len};
ghost use Rattle.avr_image.specs.Lists.{number_text, prefix, radix};

use crate::list::Base;
use arrayvec::ArrayVec;

/// Writes the digits to the end of `buffer` and returns where they begin.
#[tactic(auto, using(crate::proofs::Texts::Digits::digits_written))]
fn write_digits(radix: u8, byte: u8, buffer: &mut [u8; 8]) -> usize
    requires { (2 ≤ radix) × (radix ≤ 16) }
    ensures start { result ≤ 8 }
    ensures written { drop result buffer.new ≡ digits radix false byte }
{
    let mut rest = byte;
    let mut at = 8;
    loop {
        at -= 1;
        let digit = rest % radix;
        buffer[at] = if digit < 10 {
            b'0' + digit
        } else {
            b'a' + (digit - 10)
        };
        rest /= radix;
        if rest == 0 {
            return at;
        }
    }
}

/// Returns the characters before a number's digits.
fn prefix_of(base: Base, byte: u8) -> &'static [u8]
    ensures { result.now ≡ prefix base byte }
{
    match base {
        Base::Dec => b"",
        Base::Hex => b"0x",
        Base::Oct => if byte < 8 { b"" } else { b"0" },
        Base::Bin => b"0b",
    }
}

fn radix_of(base: Base) -> u8
    ensures { result ≡ radix base }
{
    match base {
        Base::Dec => 10,
        Base::Hex => 16,
        Base::Oct => 8,
        Base::Bin => 2,
    }
}

/// Appends a number with its prefix.
pub(crate) fn push_number(base: Base, byte: u8, out: &mut ArrayVec<u8, 80>)
    requires { array_vec_len out.old + 10 ≤ 80 }
    ensures written { out.new.items ≡ out.old.items ++ number_text base byte }
    ensures short { array_vec_len out.new ≤ array_vec_len out.old + 10 }
{
    let mut buffer = [0; 8];
    let start = write_digits(radix_of(base), byte, &mut buffer);
    let _ = out.try_extend_from_slice(prefix_of(base, byte));
    let _ = out.try_extend_from_slice(&buffer[start..]);
}
