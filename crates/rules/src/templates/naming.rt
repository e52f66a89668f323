//! What templates are called, and which arguments they take.
ghost use Rattle.std.specs.Prelude.{◌≡◌};
ghost use Rattle.rules.specs.Template.{TakesWhatItNeeds};
ghost use Rattle.rules.specs.Naming.{template_number, template_word, arguments_of, NumberedSo};
ghost use Rattle.std.proofs.Common.{rules};

use super::{Arguments, Template};
use machine::Numbered;

impl Numbered for Template {
    ghost number = { template_number };

    ghost told_apart = { Prim.search rules };

    fn number(self) -> u8 {
        self as u8
    }
}

impl Template {
    /// The template with a published number, where there is one.
    pub fn from_number(number: u8) -> Option<Template>
        ensures { NumberedSo result number }
    {
        match number {
            1 => Some(Template::Existence),
            2 => Some(Template::Absence),
            3 => Some(Template::Exactly),
            4 => Some(Template::Init),
            5 => Some(Template::Last),
            6 => Some(Template::RespondedExistence),
            7 => Some(Template::CoExistence),
            8 => Some(Template::Response),
            9 => Some(Template::Precedence),
            10 => Some(Template::Succession),
            11 => Some(Template::AlternateResponse),
            12 => Some(Template::AlternatePrecedence),
            13 => Some(Template::AlternateSuccession),
            14 => Some(Template::ChainResponse),
            15 => Some(Template::ChainPrecedence),
            16 => Some(Template::ChainSuccession),
            17 => Some(Template::NotCoExistence),
            18 => Some(Template::NotSuccession),
            19 => Some(Template::NotChainSuccession),
            20 => Some(Template::Choice),
            21 => Some(Template::ExclusiveChoice),
            _ => None,
        }
    }

    /// Which arguments the template takes: just those on which it hangs when it holds.
    #[tactic(auto, using(crate::proofs::Taken::takes_what_it_needs))]
    pub fn arguments(self) -> Arguments
        ensures takes_these { result ≡ arguments_of self }
        ensures takes_what_it_needs { TakesWhatItNeeds self }
    {
        match self {
            Template::Existence | Template::Absence | Template::Exactly => Arguments::CueAndCount,
            Template::Init | Template::Last => Arguments::OneCue,
            _ => Arguments::TwoCues,
        }
    }

    /// The template's word. No two templates have one word.
    pub fn word(self) -> &'static [u8]
        ensures { result.now ≡ template_word self }
    {
        match self {
            Template::Existence => b"existence",
            Template::Absence => b"absence",
            Template::Exactly => b"exactly",
            Template::Init => b"init",
            Template::Last => b"last",
            Template::RespondedExistence => b"responded-existence",
            Template::CoExistence => b"co-existence",
            Template::Response => b"response",
            Template::Precedence => b"precedence",
            Template::Succession => b"succession",
            Template::AlternateResponse => b"alternate-response",
            Template::AlternatePrecedence => b"alternate-precedence",
            Template::AlternateSuccession => b"alternate-succession",
            Template::ChainResponse => b"chain-response",
            Template::ChainPrecedence => b"chain-precedence",
            Template::ChainSuccession => b"chain-succession",
            Template::NotCoExistence => b"not-co-existence",
            Template::NotSuccession => b"not-succession",
            Template::NotChainSuccession => b"not-chain-succession",
            Template::Choice => b"choice",
            Template::ExclusiveChoice => b"exclusive-choice",
        }
    }
}
