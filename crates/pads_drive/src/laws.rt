//! How far the bytes that came lie ahead of the frames that are done.
ghost use Rattle.std.specs.Prelude.{◌≡◌, ℕ, ◌+◌, ◌≤◌, true, List, ◌++◌, length, take};
ghost use Rattle.pads_drive.specs.Ahead.{BeginsWith, IsBatch, all_have_bytes, most_ahead, spread};
ghost use Rattle.pads_frame.specs.Cutting.{closed, records};
ghost use Rattle.pads_frame.specs.Fits.{FitsLimit};
ghost use Rattle.pads_frame.specs.declared.discipline.Discipline.{Discipline};
ghost use Rattle.pads_value.specs.Cuts.{Cut};

/// Of the frames that the bytes so far complete some are done and the others are at hand. Where no
/// frame of the input is too long or broken, the bytes that complete those that are done lack at most
/// the bytes of those at hand and of one frame more.
pub fn frames_lie_close_behind()
    ensures close { (discipline : Discipline) (max : ℕ) (bytes more : List ℕ) (done hand : List Cut) → FitsLimit discipline max
        → all_have_bytes (records discipline max (bytes ++ more)) ≡ true → BeginsWith (done ++ hand) (closed discipline max bytes)
        → (n : ℕ) × BeginsWith done (closed discipline max (take n bytes)) × (length bytes ≤ n + (spread hand + (max + 4))) }
{}

/// The bytes were read in pieces of at most 4,096, and the frames that those before the last piece
/// complete are done or in one batch at hand. Where no frame of the input is too long or broken, those
/// that are done are all that the bytes so far complete, but for few of the last of them.
pub fn reading_is_little_ahead()
    ensures ahead { (discipline : Discipline) (max : ℕ) (seen piece more : List ℕ) (done hand others : List Cut) → FitsLimit discipline max
        → all_have_bytes (records discipline max (seen ++ piece ++ more)) ≡ true
        → records discipline max (seen ++ piece ++ more) ≡ done ++ hand ++ others
        → length (closed discipline max seen) ≤ length done + length hand → IsBatch hand → length piece ≤ 4096
        → (n : ℕ) × BeginsWith done (closed discipline max (take n (seen ++ piece))) × (length (seen ++ piece) ≤ n + most_ahead max) }
{}
