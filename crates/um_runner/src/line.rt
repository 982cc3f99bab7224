//! The words of a runner.

ghost use Rattle.std.specs.Prelude.{◌≡◌, ◌≢◌, ◌≤◌, ◌<◌, ◌∷◌, [], ℕ, Bool, true, false, List, map, decimal, string_bytes, MatchOption};
ghost use Rattle.um_model.specs.Moments.{process_limit};
ghost use Rattle.um_runner.specs.Jobs.{entries_of, words_of};
ghost use Rattle.um_runner.specs.RunnerLines.{IsHandedLine, IsRunnerLine, TellsRunner, handed_words, line_words};

use crate::job::Job;
use crate::texts::number_in;
use um_model::ProcessNumber;

/// The parts of a runner's command line.
#[derive(Clone, Copy, Debug)]
pub struct RunnerLine<'a> {
    /// The folder of its files.
    pub folder: &'a str,
    /// The process number that it is for.
    pub number: ProcessNumber,
    /// The job, with the entries that stand among the words.
    pub job: Job<'a>,
    /// The entries are those of the number's file, and none stands among the words.
    pub has_file: bool,
}

/// The words of a runner where they belong, before any is read as a number.
#[derive(Clone, Copy)]
struct Options<'a> {
    folder: &'a String,
    number: &'a String,
    count: &'a String,
    /// The words after `--`.
    words: &'a [String],
}

/// The word that follows this one, with which the words begin, and the words after both. None for other words.
fn value_behind<'a>(option: &str, words: &'a [String]) -> Option<(&'a String, &'a [String])>
    ensures { MatchOption result ((value : List ℕ) (others : List (List ℕ)) → map string_bytes words.now ≢ option.now ∷ value ∷ others)
        (λ r. map string_bytes words.now ≡ option.now ∷ string_bytes r.0.now ∷ map string_bytes r.1.now) }
{
    let (first, others) = words.split_first()?;
    if first.as_str() != option {
        return None;
    }
    let (value, others) = others.split_first()?;
    Some((value, others))
}

/// The words that follow this one, with which they begin. None for other words.
fn words_behind<'a>(word: &str, words: &'a [String]) -> Option<&'a [String]>
    ensures { MatchOption result ((others : List (List ℕ)) → map string_bytes words.now ≢ word.now ∷ others)
        (λ others. map string_bytes words.now ≡ word.now ∷ map string_bytes others.now) }
{
    let (first, others) = words.split_first()?;
    if first.as_str() != word {
        return None;
    }
    Some(others)
}

/// The number of a process that the word names. None for a word that isn't a number in decimal digits without zeros in
/// front, for 0 and from 2^63 on.
fn process_of(word: &str) -> Option<ProcessNumber>
    ensures { MatchOption result ((n : ℕ) → 1 ≤ n → n < process_limit → word.now ≢ decimal n) (λ n. word.now ≡ decimal n) }
{
    ProcessNumber::new(number_in(word.as_bytes())?)
}

impl<'a> Options<'a> {
    /// The options that the words are. None where they aren't in this order.
    fn of(words: &'a [String]) -> Option<Options<'a>>
        ensures { MatchOption result
            ((folder number count : List ℕ) (words' : List (List ℕ)) → map string_bytes words.now ≢ line_words folder number count words')
            (λ o. map string_bytes words.now ≡ line_words (string_bytes o.folder.now) (string_bytes o.number.now) (string_bytes o.count.now) (map string_bytes o.words.now)) }
    {
        let (folder, words) = value_behind("--dir", words)?;
        let (number, words) = value_behind("--number", words)?;
        let (count, words) = value_behind("--env", words)?;
        let words = words_behind("--", words)?;
        Some(Options {
            folder,
            number,
            count,
            words,
        })
    }
}

/// The folder, the number and the command's words where the entries stand in a file. None where the words aren't in this order.
fn handed_parts<'a>(words: &'a [String]) -> Option<(&'a String, &'a String, &'a [String])>
    ensures { MatchOption result
        ((folder number : List ℕ) (words' : List (List ℕ)) → map string_bytes words.now ≢ handed_words folder number words')
        (λ r. map string_bytes words.now ≡ handed_words (string_bytes r.0.now) (string_bytes r.1.now) (map string_bytes r.2.now)) }
{
    let (folder, words) = value_behind("--dir", words)?;
    let (number, words) = value_behind("--number", words)?;
    let words = words_behind("--env-file", words)?;
    let words = words_behind("--", words)?;
    Some((folder, number, words))
}

impl<'a> RunnerLine<'a> {
    /// Reads the words with which the entries stand among them.
    fn counted(words: &'a [String]) -> Option<RunnerLine<'a>>
        ensures { MatchOption result
            ((folder : List ℕ) (number : ℕ) (entries command : List (List ℕ)) → IsRunnerLine folder number entries command (map string_bytes words.now) → ⊥)
            (λ line. (line.has_file ≡ false) × IsRunnerLine line.folder.now line.number (entries_of line.job) (words_of line.job) (map string_bytes words.now)) }
    {
        let options = Options::of(words)?;
        let number = process_of(options.number.as_str())?;
        let count = number_in(options.count.as_bytes())? as usize;
        Some(RunnerLine {
            folder: options.folder.as_str(),
            number,
            job: Job::of(count, options.words)?,
            has_file: false,
        })
    }

    /// Reads the words with which the entries stand in a file.
    fn handed(words: &'a [String]) -> Option<RunnerLine<'a>>
        ensures { MatchOption result
            ((folder : List ℕ) (number : ℕ) (command : List (List ℕ)) → IsHandedLine folder number command (map string_bytes words.now) → ⊥)
            (λ line. (line.has_file ≡ true) × (entries_of line.job ≡ []) × IsHandedLine line.folder.now line.number (words_of line.job) (map string_bytes words.now)) }
    {
        let (folder, number, words) = handed_parts(words)?;
        let number = process_of(number.as_str())?;
        Some(RunnerLine {
            folder: folder.as_str(),
            number,
            job: Job::of(0, words)?,
            has_file: true,
        })
    }

    /// Reads `--dir DIR --number N --env COUNT -- WORDS..`, of which the first COUNT words are entries NAME=value and the others the
    /// command, or `--dir DIR --number N --env-file -- WORDS..`, which is the command with entries that stand in the number's file. None for
    /// other words: another order, a number that isn't in decimal digits without zeros in front, the number 0 or one from 2^63 on, and
    /// what can be no job (`Job::of`).
    pub fn of(words: &'a [String]) -> Option<RunnerLine<'a>>
        ensures { MatchOption result
            ((has_file : Bool) (folder : List ℕ) (number : ℕ) (entries command : List (List ℕ)) → TellsRunner has_file folder number entries command (map string_bytes words.now) → ⊥)
            (λ line. TellsRunner line.has_file line.folder.now line.number (entries_of line.job) (words_of line.job) (map string_bytes words.now)) }
    {
        match RunnerLine::counted(words) {
            Some(line) => Some(line),
            None => RunnerLine::handed(words),
        }
    }
}
