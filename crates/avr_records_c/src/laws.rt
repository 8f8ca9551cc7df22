//! Laws of the definitions that contracts of the calls for C cite.
ghost use Rattle.std.specs.Prelude.{◌≡◌, ◌*◌, ◌<◌, ◌≤◌, ◌^◌, ℕ, List, length, Option, is_some};
ghost use Rattle.std.specs.List.{concat};
ghost use Rattle.avr_image.specs.Image.{byte_at};
ghost use Rattle.avr_records.specs.Reading.{image_in_text};
ghost use Rattle.avr_records.specs.Sparse.{image_text};
ghost use Rattle.avr_records.specs.declared.kind.Kind.{Kind};
ghost use Rattle.avr_records_c.specs.Bitmap.{bitmap, image_of, is_marked};
ghost use Rattle.avr_records_c.specs.Reading.{read_into};
ghost use Rattle.avr_records_c.specs.RoundTrip.{EachIsByte, written_and_read};
ghost use Rattle.avr_records_c.specs.Writing.{WroteFile, file_start};

/// A bit of an image's bitmap is 1 exactly if its address holds a byte.
#[tactic(auto, using(crate::proofs::Bits::there_where_held))]
pub fn a_bitmap_marks_what_is_there()
    ensures { (image : List (Option ℕ)) (n addr : ℕ) → addr < n * 8
        → is_marked (bitmap image n) addr ≡ is_some (byte_at image addr) }
{}

/// If calls with one cursor put a file from beginning to end, their pieces joined are the file, whatever the rooms'
/// sizes.
#[tactic(auto, using(crate::proofs::Cursors::pieces_join))]
pub fn pieces_join()
    ensures { (kind : Kind) (image : List (Option ℕ)) (pieces : List (List ℕ)) → WroteFile kind image file_start pieces
        → concat pieces ≡ image_text kind image }
{}

/// A memory's file reads back, into one of its size, as the same bytes and bitmap, with FF in gaps and the end record.
#[tactic(auto, using(crate::proofs::RoundTrip::reads_back))]
pub fn what_is_written_reads_back()
    ensures { (kind : Kind) (present bytes : List ℕ) → length bytes ≤ 2 ^ 32 → EachIsByte bytes
        → read_into bytes present (image_in_text kind (image_text kind (image_of present bytes)) (length bytes))
        ≡ written_and_read present bytes }
{}
