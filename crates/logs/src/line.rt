//! What a line of a log can say.
ghost use Rattle.std.specs.Prelude.{◌≡◌, ℕ, List, MatchOption, ◌≢◌};

/// What a line of a log can say, and the bytes that are written of it.
pub trait Line: Drop {
    // the bytes of the line
    ghost text: { Self → List ℕ };

    /// What a line says; `None` exactly when its bytes are those of nothing that a line can say.
    fn read(line: &[u8]) -> Option<Self>
        ensures { MatchOption result ((said : Self) → text said ≢ line.now) (λ said. text said ≡ line.now) };
}
