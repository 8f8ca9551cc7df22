//! Laws of a conversation with the emulated programmer over a bad link. What a link does to one command is an
//! exchange. A conversation goes along its exchanges, over a wire and over any tape without forged frames.

ghost use Rattle.std.specs.Prelude.{filter, true, ◌≡◌, ◌++◌, List, [], length, replicate, ◌<◌, ℕ};
ghost use Rattle.stk_frame.specs.Frame.{frame};
ghost use Rattle.stk_frame.specs.Cut.{frames, is_good};
ghost use Rattle.stk_host.specs.Tape.{Tape};
ghost use Rattle.stk_host.specs.Dialog.{Dialog, Event, played, bytes_sent, frames_in, outputs, Done};
ghost use Rattle.stk_host.specs.Play.{Progress, progress_at, InTurn, IsBytePrefixOf, Plays};
ghost use Rattle.stk_host.specs.Transcript.{Transcript, sent, heard};
ghost use Rattle.stk_emu.specs.Programmer.{Programmer};
ghost use Rattle.stk_emu.specs.Device.{device};
ghost use Rattle.avr_laws.specs.NoForgedFrame.{ForgesNoFrame};
ghost use Rattle.avr_laws.specs.AnyTape.{GoesAlongExchanges, ReceivedSentFrames, after_received_bytes, after_sent_frames, executions_by_arrival};
ghost use Rattle.avr_tool.specs.Authentic.{RepliesAreAuthentic};
ghost use Rattle.stk_emu.specs.Lawful.{NoneHasNumber};
ghost use Rattle.stk_emu.specs.Wire.{Wire, AreLawful, executions_of_fates, tape_of, exchanges_of_fates};
ghost use Rattle.stk_emu.specs.Wired.{WiredState, FollowsFates, NeverIdle};
ghost use Rattle.stk_emu.specs.declared.fate.Fate.{Fate};
ghost use Rattle.stk_emu.specs.Exchange.{Execution};
ghost use Rattle.stk_emu.specs.DialogOverExchanges.{state_after, outputs_after, SendsValidBodies};

/// States that a conversation with the emulated programmer follows from its exchanges (what became of each command and
/// its reply), if no reply that it takes is forged. Its output and result are those of a run command by command over
/// these exchanges, one for each frame sent. So is the programmer's state, if the good frames that it received are some
/// of those sent, in order.
pub fn over_any_tape_a_conversation_follows_its_exchanges<E, R>()
    ensures goes { (d : Dialog E R) (n : ℕ) (tape : Tape) (p : Programmer) (executions : List Execution)
        → SendsValidBodies d → RepliesAreAuthentic device d n tape p executions
        → GoesAlongExchanges device d n tape p executions }
    ensures got { (got : List ℕ) (later sent : List (List ℕ)) (executions : List Execution) (p : Programmer)
        → ReceivedSentFrames got later sent executions → after_received_bytes device got later p
        ≡ after_sent_frames device sent executions p }
{}

/// States that over a link that forges no frame each reply taken is what the emulated programmer sent to that command,
/// or a refusal. The reply taken has the number of its command, and of the last 256 frames sent only that command has
/// it.
// Proof: `no_forged_frame_authentic` (Lines/NoForgedFrame).
pub fn a_link_that_forges_no_frame_is_authentic<E, R>()
    ensures { (d : Dialog E R) (n : ℕ) (tape : Tape) (p : Programmer) (executions : List Execution)
        → ForgesNoFrame device d n tape p executions [] → RepliesAreAuthentic device d n tape p executions }
{}

/// States that each reply over the emulated link is the programmer's own or a refusal, under conditions on its noise
/// and late replies. Noise has at most 2,048 bytes and no valid frame. No reply that is late at the start has the next
/// command's number. Late replies are those to the last three frames. `prefix`: a programmer that received a prefix of
/// the bytes sent received the first frames, each once.
// Proof: avr_tool's `over_wire` (Lines/WireTapes) and `prefix_came` (Lines/NoForgedFrame).
pub fn a_wire_is_an_authentic_link<E, R>()
    ensures wire { (d : Dialog E R) (n : ℕ) (w : Wire Programmer) (sent more : List (List ℕ)) → SendsValidBodies d
        → NoneHasNumber n w.late → AreLawful w.fates
        → frames_in (played d n (tape_of device sent w)).events ≡ sent ++ more
        → RepliesAreAuthentic device d n (tape_of device sent w) w.programmer (executions_of_fates (length sent)
        w.fates) }
    ensures prefix { (got : List ℕ) (sent others : List (List ℕ)) → sent ≡ frames got ++ others
        → filter is_good sent ≡ sent → ReceivedSentFrames got [] sent
        (executions_by_arrival (replicate (length (frames got)) true)) }
{}

/// States that over a wire (the emulated link) a byte or a timeout waits whenever the host receives, if the host
/// receives only while a reply is due. The fates of frames are lawful: noise has at most 2,048 bytes and no valid
/// frame.
pub fn a_conversation_in_turn_is_never_idle<E, R>()
    ensures { (d : Dialog E R) (n : ℕ) (p : Programmer) (fates : List Fate) (transcript : Transcript)
        → SendsValidBodies d → AreLawful fates → InTurn d (progress_at n []) transcript → NeverIdle p fates transcript }
{}

/// States that over a wire (the emulated link) the result and output of a conversation follow from what the link does
/// to each frame. They are those of a run command by command over the exchanges of the fates, one for each frame sent.
/// So is the programmer's state, also if the conversation broke off.
pub fn over_a_wire_a_conversation_follows_its_exchanges<E, R>()
    ensures programmer { (d : Dialog E R) (n : ℕ) (p : Programmer) (fates : List Fate) (w : WiredState)
        → SendsValidBodies d → AreLawful fates → FollowsFates p fates w → InTurn d (progress_at n []) w.transcript
        → IsBytePrefixOf (sent w.transcript) (bytes_sent (played d n (heard w.transcript)).events)
        → w.wire.programmer ≡ (state_after device (length (frames (sent w.transcript))) d p
        (exchanges_of_fates fates)).programmer }
    ensures whole { (d : Dialog E R) (n : ℕ) (p : Programmer) (fates : List Fate) (w : WiredState)
        (events : List (Event E)) (r : R) (after : Progress)
        → SendsValidBodies d → AreLawful fates → FollowsFates p fates w
        → Plays d (progress_at n []) w.transcript events r after
        → IsBytePrefixOf (sent w.transcript) (bytes_sent (played d n (heard w.transcript)).events)
        × ((state_after device (length (frames (sent w.transcript))) d p (exchanges_of_fates fates)).dialog ≡ Done r)
        × (outputs events ≡ outputs_after device (length (frames (sent w.transcript))) d p (exchanges_of_fates fates)) }
{}
