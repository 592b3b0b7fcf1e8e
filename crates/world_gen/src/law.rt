// What holds of every generated document. The function does nothing: it carries a law on its contract.
ghost use Rattle.std.specs.Prelude.{◌≡◌, ◌≤◌, ℕ, true};
ghost use Rattle.history.specs.Premise.{lease_premise};
ghost use Rattle.script_reader.specs.Lawful.{IsLawfulDoc};
ghost use Rattle.world_gen.specs.Generated.{generated};

use manifest_laws::objects_are_readable;

/// Each generated document is lawful, and its lease premise holds.
pub fn generated_documents_are_lawful()
    ensures lawful { (seed nodes pods beats : ℕ) → nodes ≤ 1000 → pods ≤ 30000 → beats ≤ 100000
        → IsLawfulDoc (generated seed nodes pods beats) }
    ensures premise { (seed nodes pods beats : ℕ) → lease_premise (generated seed nodes pods beats) ≡ true }
{
    objects_are_readable();
}
