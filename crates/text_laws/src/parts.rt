//! Laws of the parts of the text: a reader meets a part, or stops if no allowed part goes on.

ghost use Rattle.std.specs.Prelude.{◌≡◌, ℕ, ◌<◌, Option, None, Some, List};
ghost use Rattle.text_laws.specs.Parts.{ended_number, IsBetween, ended_name, IsNewName, sort_word, ended_answer};
ghost use Rattle.text_laws.specs.Spellings.{Head, IsHead, head_text, rest_text, IsRestOf};
ghost use Rattle.text_laws.specs.Reading.{Met};

/// The base, a count of states, and a number below a bound.
pub fn numbers_are_read_or_stop()
    ensures base { (bytes : List ℕ) → Met (ended_number 10) (IsBetween 2 (Some 17)) bytes }
    ensures count { (bytes : List ℕ) → Met (ended_number 10) (IsBetween 1 None) bytes }
    ensures below { (bound ending : ℕ) (bytes : List ℕ) → 0 < bound → ending < 48 → Met (ended_number ending) (IsBetween 0 (Some bound)) bytes }
{}

/// A name that is none of the earlier ones.
pub fn names_are_read_or_stop()
    ensures { (earlier : List (List ℕ)) (bytes : List ℕ) → Met ended_name (IsNewName earlier) bytes }
{}

/// A sort, and yes or no.
pub fn words_are_read_or_stop()
    ensures sort { (bytes : List ℕ) → Met sort_word (λ _. Unit {0}) bytes }
    ensures answer { (bytes : List ℕ) → Met ended_answer (λ _. Unit {0}) bytes }
{}

/// The first lines.
pub fn heads_are_read_or_stop()
    ensures { (bytes : List ℕ) → Met head_text IsHead bytes }
{}

/// The lines after the first ones.
pub fn rests_are_read_or_stop()
    ensures { (h : Head) (bytes : List ℕ) → IsHead h → Met rest_text (IsRestOf h) bytes }
{}
