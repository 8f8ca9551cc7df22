//! Laws of the definitions that contracts cite. They hold whatever the code does.
#![tactic(auto, using(crate::proofs::Lemmas::laws))]

ghost use Rattle.std.specs.Prelude.{◌≡◌, ◌≢◌, ◌<◌, ◌≤◌, ◌↔◌, ◌+◌, ◌-◌, ◌++◌, ◌⊎◌, ℕ, true, List, [], ◌∷◌, All, length, take, drop, min, flat_map, slice_index_or, is_some, IsTrue, Ok, Err, Option, None, Some};
ghost use Rattle.std.specs.List.{enumerate_from, slice_range};
ghost use Rattle.std.specs.Option.{option_or};
ghost use Rattle.avr_image.specs.Image.{byte_at, filled_bytes, first_from, fits, from_zero, image_of_pairs, is_same, with_pairs, over, run_end, with_byte};
ghost use Rattle.avr_image.specs.Lists.{list_line};
ghost use Rattle.avr_image.specs.Runs.{leading_run, places_of, runs};
ghost use Rattle.avr_image.specs.Values.{image_of_values};
ghost use Rattle.avr_image.specs.declared.list.Base.{Base};
ghost use Rattle.avr_image.specs.ByAddress.{last_at};
ghost use Rattle.avr_image.specs.Walk.{IsFilled, IsLongestRun, IsNextHeld, IsByteRun};

use crate::fault::ImageFault;

/// An address that holds a byte is below the size.
pub fn bytes_are_held_below_the_size()
    ensures within { (image : List (Option ℕ)) (addr : ℕ) → is_some (byte_at image addr) ≡ true
        → addr < length image }
    ensures past { (image : List (Option ℕ)) (addr : ℕ) → length image ≤ addr → byte_at image addr ≡ None }
{}

/// The image of two lists of bytes, one after the other, is the second list's image laid over the first list's.
pub fn parts_are_laid_over()
    ensures { (size : ℕ) (first second : List (ℕ × ℕ)) → image_of_pairs size (first ++ second)
        ≡ over (image_of_pairs size first) (image_of_pairs size second) }
{}

/// Putting bytes into an image has the same result as laying an image of just these bytes over it.
pub fn laying_is_laying_over()
    ensures { (image : List (Option ℕ)) (places : List (ℕ × ℕ))
        → with_pairs image places ≡ over image (image_of_pairs (length image) places) }
{}

/// Laying images of one size over each other is associative.
pub fn laying_over_groups()
    ensures { (first second third : List (Option ℕ)) → length second ≡ length third
        → over (over first second) third ≡ over first (over second third) }
{}

/// After an image is laid over one of its size, an address holds the upper image's byte, else the lower one's. After
/// bytes were put into an image, an address holds the last byte put there, else the image's.
pub fn over_is_by_address()
    ensures over { (first second : List (Option ℕ)) (addr : ℕ) → length first ≡ length second
        → byte_at (over first second) addr ≡ option_or (byte_at second addr) (byte_at first addr) }
    ensures laid { (image : List (Option ℕ)) (places : List (ℕ × ℕ)) (addr : ℕ) → addr < length image
        → byte_at (with_pairs image places) addr ≡ option_or (last_at addr places) (byte_at image addr) }
{}

/// A byte or span that was put inside an image is at its addresses. All other addresses and the size are unchanged.
pub fn a_span_is_by_address()
    ensures byte { (image : List (Option ℕ)) (addr byte : ℕ) → addr < length image
        → byte_at (with_byte image addr byte) addr ≡ Some byte }
    ensures beside { (image : List (Option ℕ)) (addr byte other : ℕ) → other ≢ addr
        → byte_at (with_byte image addr byte) other ≡ byte_at image other }
    ensures inside { (image : List (Option ℕ)) (addr : ℕ) (bytes : List ℕ) (place : ℕ)
        → addr + length bytes ≤ length image → place < length bytes
        → byte_at (with_pairs image (enumerate_from addr bytes)) (addr + place)
        ≡ Some (slice_index_or bytes place 0) }
    ensures below { (image : List (Option ℕ)) (addr : ℕ) (bytes : List ℕ) (other : ℕ) → other < addr
        → byte_at (with_pairs image (enumerate_from addr bytes)) other ≡ byte_at image other }
    ensures above { (image : List (Option ℕ)) (addr : ℕ) (bytes : List ℕ) (other : ℕ) → addr + length bytes ≤ other
        → byte_at (with_pairs image (enumerate_from addr bytes)) other ≡ byte_at image other }
    ensures size { (image : List (Option ℕ)) (places : List (ℕ × ℕ))
        → length (with_pairs image places) ≡ length image }
{}

/// The image of bytes from address 0 on is an empty image with these bytes put at 0, if they fit.
pub fn bytes_from_zero_are_a_span()
    ensures { (bytes : List ℕ) (size : ℕ) → length bytes ≤ size
        → from_zero bytes size ≡ image_of_pairs size (enumerate_from 0 bytes) }
{}

/// Bytes fit into a memory exactly if there are none, or the address of the last one is below the size.
pub fn bytes_fit_below_the_size()
    ensures fitting { (addr : ℕ) (bytes : List ℕ) (size : ℕ) → fits addr bytes size ≡ true
        → (bytes ≡ []) ⊎ (addr + length bytes ≤ size) }
    ensures below { (addr : ℕ) (bytes : List ℕ) (size : ℕ) → addr + length bytes ≤ size → fits addr bytes size ≡ true }
    ensures none { (addr size : ℕ) → fits addr [] size ≡ true }
{}

/// Images of one size are equal if they have the same byte or gap at each address.
pub fn images_are_equal_by_address()
    ensures { (first second : List (Option ℕ)) → length first ≡ length second
        → ((addr : ℕ) → addr < length second → byte_at first addr ≡ byte_at second addr) → first ≡ second }
{}

/// `==` is true exactly if the images are equal: same size, bytes and gaps.
pub fn equal_images_are_one()
    ensures { (first second : List (Option ℕ)) → IsTrue (is_same first second) ↔ (first ≡ second) }
{}

/// `first_from` is the first address from a given one on that holds a byte, and `None` only if none does.
pub fn first_from_is_the_next_held()
    ensures next { (image : List (Option ℕ)) (addr place : ℕ) → first_from image addr ≡ Some place
        → IsNextHeld image addr place }
    ensures none { (image : List (Option ℕ)) (addr : ℕ) → first_from image addr ≡ None → (k : ℕ) → addr ≤ k
        → byte_at image k ≡ None }
{}

/// `run_end` is the address after the longest run of bytes from an address on, up to a limit.
pub fn run_end_is_the_longest_run()
    ensures { (image : List (Option ℕ)) (addr end : ℕ) → addr ≤ end
        → IsByteRun image addr end (run_end image addr end) }
{}

/// A filled page has the byte of each of its addresses, and FF in gaps.
pub fn filled_is_by_address()
    ensures { (image : List (Option ℕ)) (start n : ℕ) → IsFilled image start n (filled_bytes image start n) }
{}

/// A slice of the image's bytes, with FF in gaps, is the page filled from the same addresses.
pub fn a_part_of_all_bytes_is_filled()
    ensures { (image : List (Option ℕ)) (place end : ℕ) → place ≤ end → end ≤ length image
        → slice_range (filled_bytes image 0 (length image)) place end ≡ filled_bytes image place (end - place) }
{}

/// The runs of an image, put into an empty one of its size, give the image again. Each run is a longest one and ends
/// inside the image.
pub fn an_image_is_its_runs()
    ensures longest { (image : List (Option ℕ)) → All (IsLongestRun image) (runs 0 image) }
    ensures inside { (image : List (Option ℕ)) → All (λ run. run.0 + length run.1 ≤ length image) (runs 0 image) }
    ensures whole { (image : List (Option ℕ)) → image_of_pairs (length image) (flat_map places_of (runs 0 image))
        ≡ image }
{}

/// The runs from an address on are the runs from the next address that holds a byte. At a byte, the first run is the
/// bytes before the next gap, and the others come after it.
pub fn runs_begin_at_the_next_byte()
    ensures none { (image : List (Option ℕ)) (addr : ℕ) → first_from image addr ≡ None
        → runs addr (drop addr image) ≡ [] }
    ensures next { (image : List (Option ℕ)) (addr place : ℕ) → first_from image addr ≡ Some place
        → runs addr (drop addr image) ≡ runs place (drop place image) }
    ensures first { (image : List (Option ℕ)) (addr : ℕ) → 0 < length (leading_run image)
        → runs addr image ≡ (addr, leading_run image)
        ∷ runs (addr + length (leading_run image)) (drop (length (leading_run image)) image) }
{}

/// At the next address that holds a byte, the run up to the next gap has at least one byte. `run_end` and a filled page
/// agree with this run. A run at the start of an image isn't longer than the image.
pub fn a_run_is_the_bytes_before_a_gap()
    ensures some { (image : List (Option ℕ)) (addr place : ℕ) → first_from image addr ≡ Some place
        → 0 < length (leading_run (drop place image)) }
    ensures run { (image : List (Option ℕ)) (addr end : ℕ) → run_end image addr end
        ≡ addr + min (end - addr) (length (leading_run (drop addr image))) }
    ensures filled { (image : List (Option ℕ)) (addr n : ℕ) → n ≤ length (leading_run (drop addr image))
        → filled_bytes image addr n ≡ take n (leading_run (drop addr image)) }
    ensures within { (image : List (Option ℕ)) → length (leading_run image) ≤ length image }
{}

/// A list of bytes that was written in any base reads back, without its line end, as bytes from address 0 on, if they
/// fit. An empty list reads as a bad first value.
pub fn a_list_reads_back()
    ensures some { (base : Base) (bytes : List ℕ) (size : ℕ) → 0 < length bytes → length bytes ≤ size
        → All (λ byte. byte < 256) bytes → image_of_values (list_line base bytes) size ≡ Ok (from_zero bytes size) }
    ensures none { (base : Base) (size : ℕ) → image_of_values (list_line base []) size ≡ Err (ImageFault.BadNumber 1) }
{}
