ghost use Rattle.std.specs.Prelude.{◌≡◌};

/// How much of a text was put into the caller's room, or how long a text is.
#[repr(C)]
#[derive(Clone, Copy, Debug, PartialEq, Eq)]
pub struct Piece {
    /// The number of bytes: 0 after the text's end or with a fault.
    pub length: usize,
    /// 0, or the number of the fault.
    pub fault: u8,
}

impl Piece {
    pub(crate) fn none(fault: u8) -> Piece
        ensures { result ≡ record { length = 0; fault = fault } }
    {
        Piece { length: 0, fault }
    }
}
