ghost use Rattle.std.specs.Prelude.{◌≡◌};
ghost use Rattle.avr_records.specs.Detect.{format_of_file};
ghost use Rattle.avr_records_c.specs.Numbers.{found_number};

use crate::numbers::found_number;
use avr_records::detect;

/// Detects a file's format from its first 1,024 bytes. Returns 0 for raw bytes, 1 for Intel HEX, 2 for S-records and
/// 3 for ELF.
#[unsafe(no_mangle)]
pub extern "C" fn avr_records_detect(prefix: &[u8]) -> u8
    ensures { result ≡ found_number (format_of_file prefix.now) }
{
    found_number(detect(prefix))
}
