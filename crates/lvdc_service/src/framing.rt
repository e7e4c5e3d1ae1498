//! A law over the definitions: a function that does nothing.

ghost use Rattle.std.specs.Prelude.{◌≡◌, ◌-◌, ◌++◌, ℕ, List, length, true};
ghost use Rattle.lvdc_service.specs.Frames.{with_requests, frames_within};

/// Frames mean the same requests whatever follows them, and what follows them means the same whatever they are.
pub fn frames_are_apart()
    ensures { (most : ℕ) (bytes more : List ℕ) → (frames_within most bytes).whole ≡ true
        → frames_within most (bytes ++ more)
        ≡ with_requests (frames_within most bytes).requests (frames_within (most - length (frames_within most bytes).requests) more) }
{}
