//! The size of S-records' addresses, by the highest one.

ghost use Rattle.std.specs.Prelude.{◌≡◌, ◌≤◌};
ghost use Rattle.avr_records.specs.Text.{address_size, width_of};

/// How many bytes each address of a file of S-records has.
#[derive(Clone, Copy, Debug, PartialEq, Eq)]
pub enum AddressSize {
    /// Two bytes, in S1 and S9: up to FFFF.
    Two,
    /// Three bytes, in S2 and S8: up to FFFFFF.
    Three,
    /// Four bytes, in S3 and S7: up to FFFFFFFF.
    Four,
}

impl AddressSize {
    pub(crate) fn holding(last: u64) -> AddressSize
        ensures { result ≡ address_size last }
    {
        if last < 65536 {
            AddressSize::Two
        } else if last < 16777216 {
            AddressSize::Three
        } else {
            AddressSize::Four
        }
    }

    /// Returns the number of bytes.
    ///
    /// ```text
    /// assert_eq!(rt; AddressSize::Three.bytes(), 3);
    /// ```
    pub fn bytes(self) -> usize
        ensures count { result ≡ width_of self }
        ensures least { 2 ≤ result }
        ensures most { result ≤ 4 }
    {
        match self {
            AddressSize::Two => 2,
            AddressSize::Three => 3,
            AddressSize::Four => 4,
        }
    }
}
