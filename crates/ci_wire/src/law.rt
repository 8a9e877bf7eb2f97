ghost use Rattle.std.specs.Prelude.{◌≡◌, ◌++◌, ℕ, List};
ghost use Rattle.ci_wire.specs.Frame.{IsFrame, frame_spelling};
ghost use Rattle.ci_wire.specs.Stream.{AreFrames, BeginsWithFrame, IsBad, IsPartial};
ghost use Rattle.ci_wire.specs.declared.frame.Frame.{Frame as AnyFrame};

/// What holds of all frames and bytes. A call does nothing: the contract is what it is for.
pub fn wire_law()
    // No spelling begins another, and none is that of two frames.
    ensures one { (a b : AnyFrame) (rest more : List ℕ) → IsFrame a → IsFrame b →
        frame_spelling a ++ rest ≡ frame_spelling b ++ more → a ≡ b }

    // So the frames that begin some bytes, one after the other, are told by the bytes.
    ensures one_list { (bytes : List ℕ) (frames others : List AnyFrame) (rest more : List ℕ) →
        AreFrames bytes frames rest → AreFrames bytes others more → frames ≡ others }

    // Bytes begin with a frame, or are less than one, or begin none: one of the three.
    ensures not_partial { (bytes rest : List ℕ) (frame : AnyFrame) →
        BeginsWithFrame bytes frame rest → ¬ IsPartial bytes }
    ensures not_bad { (bytes rest : List ℕ) (frame : AnyFrame) →
        BeginsWithFrame bytes frame rest → ¬ IsBad bytes }
    ensures not_both { (bytes : List ℕ) → IsPartial bytes → ¬ IsBad bytes }

    // Bad bytes stay bad, whatever follows.
    ensures stays_bad { (bytes more : List ℕ) → IsBad bytes → IsBad (bytes ++ more) }
{}
