// Settings that words give.
ghost use Rattle.std.specs.Prelude.{◌≡◌, ℕ, List, IfSome};
ghost use Rattle.lens_room.specs.Words.{Command};

/// A flag, which takes a value.
pub trait Named: Copy {
    /// Its name.
    ghost name_text: { Self → List ℕ };

    /// What it takes, up to the word that it doesn't.
    ghost takes_text: { Self → List ℕ };

    /// Its name.
    fn name(self) -> &'static [u8]
        ensures { result.now ≡ name_text self };

    /// What it takes, up to the word that it doesn't.
    fn takes(self) -> &'static [u8]
        ensures { result.now ≡ takes_text self };
}

/// The settings of a command, which words give one after the other.
pub trait Taking: Copy {
    /// What gives one of them.
    type Flag: Named;

    /// What holds of all that words give.
    ghost IsFit: { Self → Type 0 };

    /// How words give them.
    ghost command: { Command Self Self.Flag };

    /// The flag of this name.
    fn by_name(name: &[u8]) -> Option<Self::Flag>
        ensures { result ≡ command.by_name name.now };

    /// With what a text says of a flag, if it says it.
    fn with_text(self, flag: Self::Flag, text: &[u8]) -> Option<Self>
        requires { IsFit self }
        ensures with { result ≡ command.with_text self flag text.now }
        ensures fit { IfSome result IsFit };

    /// Told as one JSON object.
    fn in_json(self) -> Self
        requires { IsFit self }
        ensures json { result ≡ command.in_json self }
        ensures fit { IsFit result };
}
