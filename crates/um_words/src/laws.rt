//! Consequences of the definitions of words together, as functions that do nothing.

ghost use Rattle.std.specs.Prelude.{◌≡◌, ◌↔◌, ℕ, List, Option, Some, None};
ghost use Rattle.um_model.specs.declared.words.WordRules.{WordRules};
ghost use Rattle.um_model.specs.declared.words.WordRules.TheVariants.{Plain};
ghost use Rattle.um_model.specs.Results.{Finds};
ghost use Rattle.um_model.specs.Pieces.{begun};
ghost use Rattle.um_model.specs.Words.{piece_of_word, words_of};
ghost use Rattle.um_model.specs.Pieces.{BeginsWith};
ghost use Rattle.um_model.specs.WordSpellings.{read};
ghost use Rattle.um_model.specs.Commands.{Command, commands_read};
ghost use Rattle.um_model.specs.WordSpellings.{AreCommands, AreWords, InWord};
ghost use Rattle.um_model.specs.Substitution.{Variable, AreSubstituted};
ghost use Rattle.um_words.specs.Substituted.{substituted};

/// By the rules of a setting, of a value and of a list of names, a text reads as one list of words at most.
pub fn words_have_one_reading()
    ensures { (rules : WordRules) (text : List ℕ) (a b : List (List ℕ)) → AreWords rules text a → AreWords rules text b → a ≡ b }
{}

/// Each value has words, whatever its text.
pub fn each_value_has_words()
    ensures { (value : List ℕ) → (words : List (List ℕ)) × AreWords Plain value words }
{}

/// A text reads as one list of commands at most.
pub fn commands_have_one_reading()
    ensures { (text : List ℕ) (a b : List Command) → AreCommands text a → AreCommands text b → a ≡ b }
{}

/// The functions of the definitions find each reading of a text as words or as commands, and nothing else.
pub fn each_reading_is_found()
    ensures words { (rules : WordRules) (text : List ℕ) → Finds (words_of rules text) (AreWords rules text) }
    ensures commands { (text : List ℕ) → Finds (commands_read text) (AreCommands text) }
{}

/// A word is found at the front of a text exactly if the text begins with its pieces, and the rest is the text after
/// them. Code that goes byte by byte, inside a quote or none, finds the same, exactly if the word is spelled there.
pub fn a_word_is_found_as_it_is_spelled()
    ensures pieces { (rules : WordRules) (text word rest : List ℕ) → (begun (piece_of_word rules) text ≡ Some (word, rest)) ↔ BeginsWith (piece_of_word rules) text word rest }
    ensures read { (rules : WordRules) (text : List ℕ) → begun (piece_of_word rules) text ≡ read rules 0 None text }
    ensures spelled { (rules : WordRules) (quote : Option ℕ) (text word rest : List ℕ) → (read rules 0 quote text ≡ Some (word, rest)) ↔ InWord rules quote text word rest }
{}

/// With these variables the words of a command become one list of words at most.
pub fn a_substitution_has_one_result()
    ensures { (environment : List Variable) (words a b : List (List ℕ)) → AreSubstituted environment words a → AreSubstituted environment words b → a ≡ b }
{}

/// The list that the function of the definitions finds for the words of a command with its variables is their only
/// result.
pub fn a_substitution_is_found()
    ensures { (environment : List Variable) (words out : List (List ℕ)) → (substituted environment words ≡ out) ↔ AreSubstituted environment words out }
{}
