//! The bitmap of a memory: it marks the bytes that are present.
ghost use Rattle.std.specs.Prelude.{◌≡◌, ◌==◌, ◌&&◌, ◌+◌, ◌*◌, ◌^◌, ◌<◌, ◌-◌, ◌≤◌, ◌++◌, length, take, drop, replicate, nat_lt};
ghost use Rattle.avr_records_c.specs.Bitmap.{bit, bitmap, is_marked as spec_is_there, octet, octets_of};

use avr_image::Image;

/// Returns whether `octets` octets are the bitmap of `size` bytes, fewer than 2 to the power 32.
pub(crate) fn is_bitmap_of(octets: usize, size: usize) -> bool
    ensures { result ≡ (nat_lt size (2 ^ 32) && octets == octets_of size) }
{
    size <= u32::MAX as usize && octets == size.div_ceil(8)
}

fn bit(image: &Image, addr: u32) -> u8
    ensures value { result ≡ bit image.now addr }
    ensures small { result < 2 }
{
    u8::from(image.get(addr).is_some())
}

/// Returns the octet for the eight addresses from `addr` on.
fn octet(image: &Image, addr: u32) -> u8
    requires { addr + 8 ≤ 2 ^ 32 }
    ensures { result ≡ octet image.now addr }
{
    bit(image, addr)
        + 2 * bit(image, addr + 1)
        + 4 * bit(image, addr + 2)
        + 8 * bit(image, addr + 3)
        + 16 * bit(image, addr + 4)
        + 32 * bit(image, addr + 5)
        + 64 * bit(image, addr + 6)
        + 128 * bit(image, addr + 7)
}

/// Puts octets without a gap.
fn fill_octets(present: &mut [u8], first: usize, end: usize)
    requires { (first ≤ end) × (end ≤ length present.old) }
    ensures { present.new ≡ take first present.old ++ (replicate (end - first) 255 ++ drop end present.old) }
{
    present[first..end].fill(255);
}

/// Puts an image's bitmap. Each step skips to the next byte, then puts all full octets from there on, or else one.
pub(crate) fn put_bitmap(image: &Image, present: &mut [u8])
    requires { length present.old * 8 ≤ 2 ^ 32 }
    ensures { present.new ≡ bitmap image.now (length present.old) }
{
    present.fill(0);
    let mut next = 0;
    while next < present.len() {
        let Some(addr) = image.first_from(next as u32 * 8) else {
            return;
        };
        let first = addr as usize / 8;
        if first >= present.len() {
            return;
        }
        let end = image.run_from(first as u32 * 8, image.size()) as usize / 8;
        let end = end.min(present.len());
        if first < end {
            fill_octets(present, first, end);
            next = end;
            continue;
        }
        present[first] = octet(image, first as u32 * 8);
        next = first + 1;
    }
}

pub(crate) fn is_marked(present: &[u8], addr: usize) -> bool
    requires { addr < length present.now * 8 }
    ensures { result ≡ spec_is_there present.now addr }
{
    (present[addr / 8] >> (addr % 8)) % 2 == 1
}
