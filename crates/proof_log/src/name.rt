// The names that begin the lines and the trees of a log.
ghost use Rattle.std.specs.Prelude.{◌≡◌, ℕ, List, IfSome};
ghost use Rattle.proof_log.specs.code.Names as spec;
ghost use Rattle.proof_log.specs.code.ReadWords.{BeginsAs};

use crate::rule_names::{behind_a, behind_ex, behind_i, behind_not, behind_or, behind_r};
use crate::write::HEADER;

/// What is written by a name.
pub trait Spelled: Copy + 'static {
    /// The bytes of the name.
    ghost spell: { Self → List ℕ };

    /// All names of the type.
    ghost names: { List Self };

    /// The bytes of the name.
    fn spelling(&self) -> &'static [u8]
        ensures { result.now ≡ spell self.now };

    /// All names of the type.
    fn all() -> &'static [Self]
        ensures { result.now ≡ names };

    /// The name that the text begins with, where its bytes tell at once which it is, and what stands behind it.
    fn at_once(text: &[u8]) -> Option<(Self, &[u8])>
        ensures { IfSome result (λ found. BeginsAs spell names text.now found.0 found.1.now) };
}

/// The terms.
#[derive(Clone, Copy, PartialEq, Eq)]
pub enum TermName {
    Var,
    App,
}

const TERM_NAMES: [TermName; 2] = [TermName::Var, TermName::App];

impl Spelled for TermName {
    ghost spell = { spec.term_name };

    ghost names = { spec.term_names };

    fn spelling(&self) -> &'static [u8] {
        match self {
            TermName::Var => b"v",
            TermName::App => b"f",
        }
    }

    fn all() -> &'static [TermName] {
        &TERM_NAMES
    }

    fn at_once(text: &[u8]) -> Option<(TermName, &[u8])> {
        match text {
            [b'v', rest @ ..] => Some((TermName::Var, rest)),
            [b'f', rest @ ..] => Some((TermName::App, rest)),
            _ => None,
        }
    }
}

/// The formulas.
#[derive(Clone, Copy, PartialEq, Eq)]
pub enum FormName {
    Atom,
    Eq,
    Not,
    And,
    Or,
    Imp,
    Iff,
    All,
    Ex,
}

const FORM_NAMES: [FormName; 9] = [
    FormName::Atom,
    FormName::Eq,
    FormName::Not,
    FormName::And,
    FormName::Or,
    FormName::Imp,
    FormName::Iff,
    FormName::All,
    FormName::Ex,
];

impl Spelled for FormName {
    ghost spell = { spec.form_name };

    ghost names = { spec.form_names };

    fn spelling(&self) -> &'static [u8] {
        match self {
            FormName::Atom => b"a",
            FormName::Eq => b"=",
            FormName::Not => b"~",
            FormName::And => b"&",
            FormName::Or => b"|",
            FormName::Imp => b">",
            FormName::Iff => b"<>",
            FormName::All => b"!",
            FormName::Ex => b"?",
        }
    }

    fn all() -> &'static [FormName] {
        &FORM_NAMES
    }

    fn at_once(text: &[u8]) -> Option<(FormName, &[u8])> {
        match text {
            [b'a', rest @ ..] => Some((FormName::Atom, rest)),
            [b'~', rest @ ..] => Some((FormName::Not, rest)),
            [b'|', rest @ ..] => Some((FormName::Or, rest)),
            [b'&', rest @ ..] => Some((FormName::And, rest)),
            [b'=', rest @ ..] => Some((FormName::Eq, rest)),
            [b'>', rest @ ..] => Some((FormName::Imp, rest)),
            [b'!', rest @ ..] => Some((FormName::All, rest)),
            [b'?', rest @ ..] => Some((FormName::Ex, rest)),
            [b'<', b'>', rest @ ..] => Some((FormName::Iff, rest)),
            _ => None,
        }
    }
}

/// The rules of proofs.
#[derive(Clone, Copy, PartialEq, Eq)]
pub enum ProofName {
    Line,
    Hyp,
    AndI,
    AndE,
    OrI,
    OrE,
    ImpI,
    ImpE,
    NotI,
    NotE,
    Raa,
    IffI,
    IffL,
    IffR,
    AllI,
    AllE,
    ExI,
    ExE,
    Refl,
    Subst,
    Inhabit,
}

const PROOF_NAMES: [ProofName; 21] = [
    ProofName::Line,
    ProofName::Hyp,
    ProofName::AndI,
    ProofName::AndE,
    ProofName::OrI,
    ProofName::OrE,
    ProofName::ImpI,
    ProofName::ImpE,
    ProofName::NotI,
    ProofName::NotE,
    ProofName::Raa,
    ProofName::IffI,
    ProofName::IffL,
    ProofName::IffR,
    ProofName::AllI,
    ProofName::AllE,
    ProofName::ExI,
    ProofName::ExE,
    ProofName::Refl,
    ProofName::Subst,
    ProofName::Inhabit,
];

impl Spelled for ProofName {
    ghost spell = { spec.proof_name };

    ghost names = { spec.proof_names };

    fn spelling(&self) -> &'static [u8] {
        match self {
            ProofName::Line => b"line",
            ProofName::Hyp => b"hyp",
            ProofName::AndI => b"andi",
            ProofName::AndE => b"ande",
            ProofName::OrI => b"ori",
            ProofName::OrE => b"ore",
            ProofName::ImpI => b"impi",
            ProofName::ImpE => b"impe",
            ProofName::NotI => b"noti",
            ProofName::NotE => b"note",
            ProofName::Raa => b"raa",
            ProofName::IffI => b"iffi",
            ProofName::IffL => b"iffl",
            ProofName::IffR => b"iffr",
            ProofName::AllI => b"alli",
            ProofName::AllE => b"alle",
            ProofName::ExI => b"exi",
            ProofName::ExE => b"exe",
            ProofName::Refl => b"refl",
            ProofName::Subst => b"subst",
            ProofName::Inhabit => b"inhabit",
        }
    }

    fn all() -> &'static [ProofName] {
        &PROOF_NAMES
    }

    fn at_once(text: &[u8]) -> Option<(ProofName, &[u8])> {
        match text {
            [b'h', b'y', b'p', rest @ ..] => Some((ProofName::Hyp, rest)),
            [b'i', rest @ ..] => behind_i(rest),
            [b'l', b'i', b'n', b'e', rest @ ..] => Some((ProofName::Line, rest)),
            [b'n', b'o', b't', rest @ ..] => behind_not(rest),
            [b'a', rest @ ..] => behind_a(rest),
            [b'o', b'r', rest @ ..] => behind_or(rest),
            [b'e', b'x', rest @ ..] => behind_ex(rest),
            [b'r', rest @ ..] => behind_r(rest),
            [b's', b'u', b'b', b's', b't', rest @ ..] => Some((ProofName::Subst, rest)),
            _ => None,
        }
    }
}

/// What is declared.
#[derive(Clone, Copy, PartialEq, Eq)]
pub enum DeclName {
    Sort,
    Function,
    Predicate,
}

const DECL_NAMES: [DeclName; 3] = [DeclName::Sort, DeclName::Function, DeclName::Predicate];

impl Spelled for DeclName {
    ghost spell = { spec.decl_name };

    ghost names = { spec.decl_names };

    fn spelling(&self) -> &'static [u8] {
        match self {
            DeclName::Sort => b"s",
            DeclName::Function => b"f",
            DeclName::Predicate => b"p",
        }
    }

    fn all() -> &'static [DeclName] {
        &DECL_NAMES
    }

    fn at_once(_text: &[u8]) -> Option<(DeclName, &[u8])> {
        None
    }
}

/// The entries.
#[derive(Clone, Copy, PartialEq, Eq)]
pub enum EntryName {
    Declare,
    Lemma,
    Name,
    Choice,
}

const ENTRY_NAMES: [EntryName; 4] = [
    EntryName::Declare,
    EntryName::Lemma,
    EntryName::Name,
    EntryName::Choice,
];

impl Spelled for EntryName {
    ghost spell = { spec.entry_name };

    ghost names = { spec.entry_names };

    fn spelling(&self) -> &'static [u8] {
        match self {
            EntryName::Declare => b"D",
            EntryName::Lemma => b"L",
            EntryName::Name => b"N",
            EntryName::Choice => b"C",
        }
    }

    fn all() -> &'static [EntryName] {
        &ENTRY_NAMES
    }

    fn at_once(text: &[u8]) -> Option<(EntryName, &[u8])> {
        match text {
            [b'L', rest @ ..] => Some((EntryName::Lemma, rest)),
            _ => None,
        }
    }
}

/// The versions of logs.
#[derive(Clone, Copy, PartialEq, Eq)]
pub enum LogVersion {
    One,
}

const VERSIONS: [LogVersion; 1] = [LogVersion::One];

impl Spelled for LogVersion {
    ghost spell = { spec.version_line };

    ghost names = { spec.versions };

    fn spelling(&self) -> &'static [u8] {
        match self {
            LogVersion::One => HEADER,
        }
    }

    fn all() -> &'static [LogVersion] {
        &VERSIONS
    }

    fn at_once(_text: &[u8]) -> Option<(LogVersion, &[u8])> {
        None
    }
}
