//! Writes one line of a record file: its marks, then the bytes of a record as digits.

ghost use Rattle.std.specs.Prelude.{◌≡◌, ◌+◌, ◌*◌, ◌<◌, ◌≤◌, [], ◌∷◌, ◌++◌, length, map, not, true};
ghost use Rattle.std.specs.List.{list_all};
ghost use Rattle.avr_records.specs.Lines.{is_line_end};
ghost use Rattle.avr_records.specs.Text.{IsLine};
ghost use Rattle.std.specs.Char.{to_ascii_uppercase};
ghost use Rattle.hex.specs.Hex.{encode_upper};

use arrayvec::ArrayVec;

/// How many data bytes a row has, unless a gap or a multiple of 65,536 ends it.
pub(crate) const ROW_SIZE: usize = 32;

/// The bytes of a record: at most a count, four address bytes, 32 data bytes and a checksum.
pub(crate) type Fields = ArrayVec<u8, 38>;

/// Appends bytes. There has to be room.
pub(crate) fn append<const N: usize>(out: &mut ArrayVec<u8, N>, bytes: &[u8])
    requires { length out.old.items + length bytes.now ≤ N }
    ensures { out.new.items ≡ out.old.items ++ bytes.now }
{
    let _ = out.try_extend_from_slice(bytes);
}

/// Makes letters upper case, because the call of `hex` that doesn't allocate writes lower-case digits.
fn uppercase(digits: &mut [u8])
    ensures { digits.new ≡ map to_ascii_uppercase digits.old }
{
    for digit in digits.iter_mut() {
        digit.make_ascii_uppercase();
    }
}

/// Writes bytes as upper-case hexadecimal digits.
#[tactic(auto, using(crate::proofs::Writers::Pieces::raised_encode))]
fn put_digits(bytes: &[u8], digits: &mut [u8])
    requires { length digits.old ≡ 2 * length bytes.now }
    ensures { digits.new ≡ encode_upper bytes.now }
{
    let _ = hex::encode_to_slice(bytes, digits);
    uppercase(digits);
}

/// Writes a line of marks and upper-case digits.
#[tactic(auto, using(std::proofs::lemmas::Bool::Decides::nat_tests, crate::proofs::Writers::Lines::is_line))]
pub(crate) fn put_line(marks: &[u8], bytes: &[u8], out: &mut ArrayVec<u8, 80>)
    requires room { length marks.now + 2 * length bytes.now < 80 }
    requires marks { list_all (λ c. not (is_line_end c)) marks.now ≡ true }
    ensures text { out.new.items ≡ marks.now ++ encode_upper bytes.now ++ 10 ∷ [] }
    ensures line { IsLine out.new.items }
{
    let mut room = [0; 80];
    let digits = &mut room[..2 * bytes.len()];
    put_digits(bytes, digits);
    out.clear();
    append(out, marks);
    append(out, digits);
    out.push(b'\n');
}
