// What is wrong with the words behind a command.
ghost use Rattle.std.specs.Prelude.{◌≡◌, ◌++◌, ℕ, List, OnOk, map, string_bytes};

use kube_base::NoMemory;

/// What can be wrong with the words behind a command.
pub trait Misuse: Copy {
    /// The line on the command's usage.
    ghost usage_line: { List ℕ };

    /// What is wrong with these words.
    ghost wrong_text: { List (List ℕ) → Self → List ℕ };

    /// The line on the command's usage.
    fn usage() -> &'static [u8]
        ensures { result.now ≡ usage_line };

    /// Adds what is wrong with these words.
    fn add_to(self, text: &mut Vec<u8>, words: &[String]) -> Result<(), NoMemory>
        ensures { OnOk result (text.new.items ≡ text.old.items ++ wrong_text (map string_bytes words.now) self) };
}
