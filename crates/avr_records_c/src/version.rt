ghost use Rattle.std.specs.Prelude.{◌≡◌};
ghost use Rattle.avr_records_c.specs.Numbers.{version_number};

const MAJOR: u32 = 0;

const MINOR: u32 = 9;

const PATCH: u32 = 0;

/// Returns the version as one number: 10,000 for each major release, 100 for each minor one and 1 for each patch. It
/// is 900 for version 0.9.0.
#[unsafe(no_mangle)]
pub extern "C" fn avr_records_version() -> u32
    ensures { result ≡ version_number 0 9 0 }
{
    MAJOR * 10_000 + MINOR * 100 + PATCH
}
