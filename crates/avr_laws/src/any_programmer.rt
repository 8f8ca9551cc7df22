//! A programmer with a chip, of any kind, and the emulated one among them.
ghost use Rattle.std.specs.Prelude.{◌≡◌, ℕ, List};
ghost use Rattle.avr_laws.specs.AnyTape.{ReceivedSentFrames, after_received_bytes, after_sent_frames};
ghost use Rattle.avr_laws.specs.EmulatedStates.{HasEmptyBuffers, HasPart, chip_memories};
ghost use Rattle.avr_laws.specs.Table.{IsProgrammer, IsRow, Row};
ghost use Rattle.avr_part.specs.Part.{IsPart, Part};
ghost use Rattle.avr_part.specs.declared.part.Mem.{Mem};
ghost use Rattle.stk_emu.specs.Device.{Device, device};
ghost use Rattle.stk_emu.specs.Effect.{Memories};
ghost use Rattle.stk_emu.specs.Exchange.{Execution};

/// A programmer with a chip: the chip's part, what the programmer replies and does, and the memories of its chip. Two
/// kinds of states, and what a fuse or the lock becomes if a byte is written, by the chip's data sheet.
pub trait AnyProgrammer {
    ghost State: { Type 0 };

    ghost part: { Part };

    ghost device: { Device State };

    ghost view: { State → Memories };

    ghost IsIn: { State → Type 0 };

    ghost IsReady: { State → Type 0 };

    ghost becomes: { Mem → ℕ → ℕ };
}

/// States that the emulated programmer keeps all rows of the table, whatever is vouched for.
// Proof: `emulated_meets` (Table/Emulated).
pub fn the_emulated_programmer_keeps_the_table()
    ensures keeps { (part : Part) → IsPart part
        → IsProgrammer part device chip_memories (HasPart part) (HasEmptyBuffers part)
        (λ (row : Row) (is : IsRow part row) (x : Memories). Unit {0}) }
{}

/// States that a programmer is as the frames that it executed leave it, whatever else it received. The bytes came at
/// first and after each restart. Their valid frames are those of the frames sent that it executed, in order. Anything
/// else may be between them.
// Proof: `through_after` (Lines/AnyTape).
pub fn a_programmer_is_as_the_frames_that_it_executed<T: AnyProgrammer>()
    ensures { (got : List ℕ) (later sent : List (List ℕ)) (executions : List Execution) (p : T.State)
        → ReceivedSentFrames got later sent executions
        → after_received_bytes T.device got later p ≡ after_sent_frames T.device sent executions p }
{}
