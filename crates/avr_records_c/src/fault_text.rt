ghost use Rattle.std.specs.Prelude.{◌≡◌, ◌<◌, length};
ghost use Rattle.avr_records_c.specs.FaultText.{fault_text, put_text};

fn text_of(fault: u8) -> &'static [u8]
    ensures text { result.now ≡ fault_text fault }
    ensures short { length result.now < 40 }
{
    match fault {
        0 => b"no fault",
        1 => b"no record mark",
        2 => b"bad digit",
        3 => b"bad length",
        4 => b"bad checksum",
        5 => b"bad record type",
        6 => b"address out of range",
        7 => b"line too long",
        8 => b"bad record count",
        10 => b"out of memory",
        11 => b"arguments don't fit one another",
        12 => b"no record file",
        _ => b"no fault of this number",
    }
}

fn put_text(text: &[u8], room: &mut [u8])
    ensures { room.new ≡ put_text text.now room.old }
{
    if room.is_empty() {
        return;
    }
    let count = text.len().min(room.len() - 1);
    room[..count].copy_from_slice(&text[..count]);
    room[count] = 0;
}

/// Puts the ASCII text of a fault's number and a 0 into the caller's room. Returns the text's length in bytes, below
/// 40. A room that is too small gets as much of the text as leaves space for the 0, and an empty one nothing. Bytes
/// after the 0 are unchanged.
#[unsafe(no_mangle)]
pub extern "C" fn avr_records_fault_text(fault: u8, room: &mut [u8]) -> usize
    ensures length { result ≡ length (fault_text fault) }
    ensures short { result < 40 }
    ensures room { room.new ≡ put_text (fault_text fault) room.old }
{
    let text = text_of(fault);
    put_text(text, room);
    text.len()
}
