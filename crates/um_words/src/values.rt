//! The values of variables, found by their names.

ghost use Rattle.std.specs.Prelude.{◌≡◌, List, ℕ, IfOk, map, string_bytes};
ghost use Rattle.um_model.specs.Substitution.{value_of};
ghost use Rattle.um_model.specs.Substitution as pure;
ghost use Rattle.um_words.specs.Environment.{variables_of};
ghost use Rattle.um_words.specs.Substituted.{value_words};
ghost use Rattle.um_words.specs.Values.{Holds, split_of, split_seen};

use crate::splitting::words_by;
use crate::variables::Variable;
use std::alloc::{AllocError, Global};
use std::collections::BTreeMap;
use um_model::WordRules;

/// The words of a value: split at spaces and tabs, where `"` and `'` quote and are removed, a backslash stands for itself, and an
/// unclosed quote reaches to the end.
fn value_words(alloc: Global, value: &str) -> Result<Vec<String>, AllocError>
    ensures { IfOk result (λ words. map string_bytes words.items ≡ value_words value.now) }
{
    match words_by(alloc, WordRules::Plain, value)? {
        Some(words) => Ok(words),
        None => Ok(Vec::new(alloc)),
    }
}

/// A value, and its words.
#[derive(Drop)]
struct Value<'a> {
    text: &'a str,
    words: Vec<String>,
}

impl<'a> Value<'a> {
    fn of(alloc: Global, text: &'a str) -> Result<Value<'a>, AllocError>
        ensures { IfOk result (λ value. split_seen value ≡ split_of text.now) }
    {
        let words = value_words(alloc, text)?;
        Ok(Value { text, words })
    }
}

/// The values of an environment by the names of its variables, each split once: the environment isn't searched again,
/// nor is a value split again, for each place at which a command names it.
#[derive(Drop)]
pub(crate) struct Values<'a> {
    by_name: BTreeMap<&'a str, Value<'a>>,
}

impl<'a> Values<'a> {
    /// The values of this environment: of equal names the later counts.
    pub(crate) fn of(alloc: Global, environment: &'a [Variable]) -> Result<Values<'a>, AllocError>
        ensures { IfOk result (λ values. Holds (variables_of environment.now) values) }
    {
        let mut by_name = BTreeMap::new(alloc);
        for variable in environment {
            let value = Value::of(alloc, variable.value.as_str())?;
            by_name.insert(variable.name.as_str(), value)?;
        }
        Ok(Values { by_name })
    }

    /// The value of the name, or the empty text if it has none.
    pub(crate) fn text(&self, name: &str) -> &str
        ensures { (environment : List pure.Variable) → Holds environment self.now → result.now ≡ value_of environment name.now }
    {
        match self.by_name.get(name) {
            Some(value) => value.text,
            None => "",
        }
    }

    /// The words of its value.
    pub(crate) fn words(&self, name: &str) -> &[String]
        ensures { (environment : List pure.Variable) → Holds environment self.now → map string_bytes result.now ≡ value_words (value_of environment name.now) }
    {
        match self.by_name.get(name) {
            Some(value) => value.words.as_slice(),
            None => &[],
        }
    }
}
