//! The answers of classes: those of the states that name them.

ghost use Rattle.std.specs.Prelude.{length};
ghost use Rattle.weak_min.specs.Quotients.{is_state, class_says};

use step_tables::Answers;

/// The outputs of a diagram's states, or the colours of fraction states: 1 for yes, and 0 for no.
#[derive(Drop)]
pub(crate) struct ClassAnswers<'a> {
    pub bits: &'a [u32],
}

impl Answers for ClassAnswers<'_> {
    ghost says_yes = { λ a. class_says a.bits.now };

    ghost is_proper = { λ a. is_state (length a.bits.now) };

    fn is_yes(&self, key: &[u32]) -> bool {
        self.bits[key[0] as usize] == 1
    }
}
