//! Laws of the definitions of a runner's files, as functions that do nothing.

ghost use Rattle.std.specs.Prelude.{◌≡◌, ◌<◌, ◌^◌, ℕ, List, Some, true, false};
ghost use Rattle.std.specs.List.{list_all, list_any};
ghost use Rattle.um_runner.specs.Handed.{can_be_handed, entries_in, entries_text};
ghost use Rattle.um_runner.specs.Runner.{IsPid, IsStatus, TellsEnd, claimant_of, claim_text, file_name, is_slash};
ghost use Rattle.um_runner.specs.declared.runner_file.Claimant as claimants;
ghost use Rattle.um_runner.specs.declared.runner_file.RunnerFile as files;
ghost use Rattle.um_model.specs.declared.service.End as ends;

/// A text names one pid, one end and one claimant at most. The text written for a claim is read as its claimant's, and
/// the text written for entries as exactly those entries.
pub fn a_text_has_one_reading()
    ensures pid { (text : List ℕ) (m n : ℕ) → IsPid text m → IsPid text n → m ≡ n }
    ensures status { (text : List ℕ) (a b : ends.End) → IsStatus text a → IsStatus text b → a ≡ b }
    ensures end { (text : List ℕ) (a b : ends.End) → TellsEnd text a → TellsEnd text b → a ≡ b }
    ensures claim { (claimant : claimants.Claimant) → claimant_of (claim_text claimant) ≡ claimant }
    ensures entries { (entries : List (List ℕ)) → list_all can_be_handed entries ≡ true → entries_in (entries_text entries) ≡ Some entries }
{}

/// A name of a file has no slash, and is that of one file of one number: no path leads out of the folder, and no file is taken for
/// another.
pub fn no_path_leads_out()
    ensures slash { (n : ℕ) (file : files.RunnerFile) → n < 2 ^ 64 → list_any is_slash (file_name n file) ≡ false }
    ensures one { (m n : ℕ) (a b : files.RunnerFile) → m < 2 ^ 64 → n < 2 ^ 64 → file_name m a ≡ file_name n b → (m ≡ n) × (a ≡ b) }
{}
