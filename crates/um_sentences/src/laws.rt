//! The sentences and the definitions agree: laws, as functions that do nothing.

ghost use Rattle.std.specs.Prelude.{◌≡◌, ℕ, List, Some, true, is_some};
ghost use Rattle.um_model.specs.Keys.{is_refused_key};
ghost use Rattle.um_model.specs.Profiles.{current};
ghost use Rattle.um_model.specs.Units.{Assigned, reason_of};
ghost use Rattle.um_model.specs.declared.profile.Profile.{Profile};
ghost use Rattle.um_sentences.specs.Sentences as model;

/// Each reason why a unit can't be loaded has a sentence, whatever profile it is read by.
pub fn each_reason_has_a_sentence()
    ensures { (profile : Profile) (unit : List ℕ) (assigned : List Assigned) (reason : List ℕ) → reason_of profile unit assigned ≡ Some reason → is_some (model.topic_of_reason reason) ≡ true }
{}

/// A key has a sentence exactly if no unit may have it with a value, as files are read now.
pub fn each_refused_key_has_a_sentence()
    ensures { (key : List ℕ) → is_some (model.key_why key) ≡ is_refused_key current key }
{}
