//! Values given on the command line.

ghost use Rattle.std.specs.Prelude.{◌≡◌, ◌+◌, ◌-◌, ◌<◌, ◌≤◌, ◌==◌, ◌||◌, length, min, option_map, IfOk};
ghost use Rattle.avr_image.specs.Values.{is_separator, number_in_base, value_of, byte_of_value, image_of_values};
ghost use Rattle.std.specs.List.{position_or_len};
ghost use Rattle.avr_image.specs.Fault.{OrOutOfMemory};

use crate::fault::ImageFault;
use crate::image::Image;
use std::alloc::Global;

fn separates(c: u8) -> bool
    ensures { result ≡ is_separator c }
{
    c == b',' || c == b' ' || c == b'\t'
}

/// Returns the length of the text up to the next separator.
#[tactic(auto, using(crate::proofs::Texts::Values::first_piece))]
fn piece_len(text: &[u8]) -> usize
    ensures counted { result ≡ position_or_len is_separator text.now }
    ensures within { result ≤ length text.now }
{
    for (i, c) in text.iter().enumerate() {
        if separates(*c) {
            return i;
        }
    }
    text.len()
}

/// Returns the number that the digits write, or 256 if it is larger.
#[tactic(auto, using(crate::proofs::Texts::Digits::digits_read))]
fn read_number(base: u32, digits: &[u8]) -> Option<u32>
    requires { (2 ≤ base) × (base ≤ 16) }
    ensures { result ≡ option_map (λ n. min n 256) (number_in_base base digits.now) }
{
    if digits.is_empty() {
        return None;
    }
    let mut value = 0;
    for c in digits {
        let Some(digit) = char::from(*c).to_digit(base) else {
            return None;
        };
        value = (value * base + digit).min(256);
    }
    Some(value)
}

/// Returns the number of a value, or 256 if it is larger; `None` if it is no number.
fn read_value(piece: &[u8]) -> Option<u32>
    ensures { result ≡ option_map (λ n. min n 256) (value_of piece.now) }
{
    match piece {
        [b'0', b'x' | b'X', digits @ ..] => read_number(16, digits),
        [b'0', b'b' | b'B', digits @ ..] => read_number(2, digits),
        [b'0', _, ..] => read_number(8, &piece[1..]),
        _ => read_number(10, piece),
    }
}

/// Returns the byte of the value for an address, or the value's fault.
fn check_value(size: u32, addr: u32, piece: &[u8]) -> Result<u8, ImageFault>
    ensures { result ≡ byte_of_value size (addr, piece.now) }
{
    let Some(value) = read_value(piece) else {
        return Err(ImageFault::BadNumber(addr.saturating_add(1)));
    };
    if value > 255 {
        return Err(ImageFault::TooLarge(addr.saturating_add(1)));
    }
    if addr >= size {
        return Err(ImageFault::OutOfRange(addr));
    }
    Ok(value as u8)
}

/// Reads the values of AVRDUDE's format `m` from a command line option. A value is `0x` with hexadecimal digits, `0b`
/// with binary ones, `0` with octal ones, or decimal digits. Commas, spaces and tabs separate values. The first one
/// goes to address 0 of a memory of `size` bytes, the next to address 1, and so on.
///
/// # Errors
///
/// The fault of the first bad value: `BadNumber` or `TooLarge` with its 1-based place, or `OutOfRange` with its
/// address. `BadNumber(1)` if there is no value. `Memory` if allocation fails.
///
/// ```text
/// let image = parse_immediate(alloc, "0x12, 0b101 017", 4)?;
/// let mut bytes = [0; 4];
/// image.fill(0, &mut bytes);
/// assert_eq!(rt; bytes, [0x12, 0x05, 0x0F, 0xFF]);
/// ```
#[tactic(auto, using(crate::proofs::Texts::Values::values_read))]
pub fn parse_immediate(alloc: Global, text: &str, size: u32) -> Result<Image, ImageFault>
    ensures value { OrOutOfMemory result (image_of_values text.now size) }
    ensures size { IfOk result (λ image. length image ≡ size) }
{
    let mut image = Image::new(alloc, size)?;
    let mut addr = 0;
    let mut rest = text.as_bytes();
    while !rest.is_empty() {
        let len = piece_len(rest);
        if len > 0 {
            let (piece, more) = rest.split_at(len);
            let byte = check_value(image.size(), addr, piece)?;
            image.put(addr, byte)?;
            addr += 1;
            rest = more;
        } else {
            rest = &rest[1..];
        }
    }
    if addr == 0 {
        return Err(ImageFault::BadNumber(1));
    }
    Ok(image)
}
