ghost use Rattle.std.specs.Prelude.{◌≡◌, ◌<◌, ◌≤◌, List, ℕ, true, length, slice_index};
ghost use Rattle.stk_frame.specs.Frame.{frame};
ghost use Rattle.stk_frame.specs.Cut.{Cuts, IsPiece, cut, rest, is_good, seq_of, body_of};
ghost use Rattle.stk_frame.specs.declared.protocol.TheConstants.{LARGEST_BODY};

/// States that bytes are cut into frames and other pieces in one way only. A frame is one good piece, and a good piece
/// is the frame of its number and body.
#[tactic(auto, using(crate::proofs::Laws::frame_is_piece, crate::proofs::Laws::frame_is_good))]
pub fn cutting_is_the_only_one()
    ensures one { (bytes : List ℕ) → Cuts bytes (cut bytes) (rest bytes) }
    ensures only { (bytes : List ℕ) (pieces : List (List ℕ)) (left : List ℕ) → Cuts bytes pieces left
        → (cut bytes ≡ pieces) × (rest bytes ≡ left) }
    ensures good { (piece : List ℕ) → IsPiece piece → is_good piece ≡ true → ((i : ℕ) → slice_index piece i < 256)
        → piece ≡ frame (seq_of piece) (body_of piece) }
    ensures frames { (seq : ℕ) (body : List ℕ) → 0 < length body → length body ≤ LARGEST_BODY → IsPiece (frame seq body)
        × (is_good (frame seq body) ≡ true) }
{}
