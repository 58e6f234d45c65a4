//! What holds of frames and streams, whoever reads or writes them.
ghost use Rattle.std.specs.Prelude.{◌≡◌, List, ℕ, ◌++◌, None};
ghost use Rattle.mail_frames.specs.Spelling.{FrameBytes};
ghost use Rattle.mail_frames.specs.Streams.{AreFrames, spelling, AreFramesOf, IsBadAt, IsFront};
ghost use Rattle.mail_frames.specs.declared.frames.Frame.{Frame as AFrame};

/// No frame's bytes begin another's, so no bytes are two frames.
pub fn no_frame_begins_another()
    ensures { (f g : AFrame) → (bytes others x y : List ℕ) → FrameBytes f bytes → FrameBytes g others →
        bytes ++ x ≡ others ++ y → (f ≡ g) × (bytes ≡ others) × (x ≡ y) }
{}

/// The bytes of frames, and less than one whole frame behind them, are a good stream of these frames.
pub fn what_was_written_is_read()
    ensures frames { (frames : List AFrame) → (rest : List ℕ) → AreFrames frames → IsFront rest →
        AreFramesOf (spelling frames ++ rest) frames }
    ensures good { (frames : List AFrame) → (rest : List ℕ) → AreFrames frames → IsFront rest →
        IsBadAt (spelling frames ++ rest) None }
{}

/// A stream has one list of frames, so it is told in the same way however it is cut.
pub fn one_reading()
    ensures { (stream : List ℕ) → (frames others : List AFrame) → AreFramesOf stream frames →
        AreFramesOf stream others → frames ≡ others }
{}
