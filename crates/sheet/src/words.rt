//! The words of templates.
ghost use Rattle.std.specs.Prelude.{◌≡◌, MatchOption};
ghost use Rattle.rules.specs.Naming.{template_number, template_word};

use rules::Template;

const TEMPLATES: u8 = 21;

// The template that a word is of, where there is one.
pub(crate) fn template_of(word: &[u8]) -> Option<Template>
    ensures { MatchOption result ((t : _) → word.now ≡ template_word t → ⊥)
        (λ t. word.now ≡ template_word t) }
{
    for number in 1..=TEMPLATES {
        if let Some(template) = with_word(number, word) {
            return Some(template);
        }
    }
    None
}

// The template of a number, where there is one and this is its word.
#[tactic(auto, using(crate::proofs::Places::one_number))]
fn with_word(number: u8, word: &[u8]) -> Option<Template>
    ensures { MatchOption result
        ((t : _) → template_number t ≡ number → word.now ≡ template_word t → ⊥)
        (λ t. word.now ≡ template_word t) }
{
    match Template::from_number(number) {
        Some(template) if template.word() == word => Some(template),
        _ => None,
    }
}
