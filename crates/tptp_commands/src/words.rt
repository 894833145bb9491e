// The words of the command line.
ghost use Rattle.std.specs.Prelude.{◌≡◌, ℕ, List, ◌∷◌, ◌↔◌, IsTrue, IfSome, IfNone, codes, decimal, string_bytes};
ghost use Rattle.std.specs.Option.{option_copied};
ghost use Rattle.tptp_commands.specs.code.Options.{BeginOtherwise, NameRoot, NameNoRoot, NameLimit, NameNoLimit};
ghost use Rattle.tptp_commands.specs.code.Options.{NameNoTask};
ghost use Rattle.tptp_commands.specs.Words.{texts, task_of, request_of, task_words, Task, HasNames, IsForm, IsLimit};
ghost use Rattle.tptp_commands.specs.Words.{IsFileName, HaveNoForm};

use itoa::Buffer;

// The greatest limit of a search, and the greatest count of implications.
const MAX_LIMIT: u32 = 100_000;

/// What the program is asked to do.
#[derive(Clone, Copy)]
pub enum Job<'a> {
    /// Verify a derivation against a problem: the name of the problem, that of the derivation, and that of the log
    /// where one is to be written.
    Verify(&'a str, &'a str, Option<&'a str>),
    /// Write the canonical text of what a file spells: the name of the file.
    Format(&'a str),
    /// Parse the problem in a file, with all that it includes: the name of the file.
    Parse(&'a str),
    /// Check a log against a problem: the name of the problem, and that of the log.
    Check(&'a str, &'a str),
    /// Make a problem of so many implications and its refutation, and verify it.
    Make(u32),
    /// Search for a proof of the problem in a file, with all that it includes: the name of the file.
    Prove(&'a str),
    /// Evaluate a problem in a finite model: the name of the problem, and that of the model.
    Model(&'a str, &'a str),
}

/// What the words ask for: options, and a job.
#[derive(Clone, Copy)]
pub struct Command<'a> {
    /// The name of the folder in which included files are looked for too.
    pub root: Option<&'a str>,
    /// The greatest number of clauses in the list of a search: from 1 to 100,000, and 1,000 where none is named.
    pub limit: u32,
    pub job: Job<'a>,
}

/// What the words behind the program's name ask for. There is nothing exactly where the words have no form of a
/// command. It takes no memory.
#[tactic(auto, using(crate::proofs::Requests::asked, crate::proofs::Requests::no_root_no_form, crate::proofs::Requests::no_limit_no_form, crate::proofs::Requests::no_task_no_form))]
pub fn read_words(words: &[String]) -> Option<Command<'_>>
    ensures some { IfSome result (λ command. IsForm (texts words.now) (request_of command)) }
    ensures none { IfNone result (HaveNoForm (texts words.now)) }
{
    let (root, words) = read_root(words)?;
    let (limit, words) = read_limit(words)?;
    let job = read_job(words)?;
    Some(Command {
        root,
        limit: limit.unwrap_or(1000),
        job,
    })
}

// The words behind this one, if it comes first.
fn behind<'a>(words: &'a [String], option: &str) -> Option<&'a [String]>
    ensures some { IfSome result (λ rest. texts words.now ≡ option.now ∷ texts rest.now) }
    ensures none { IfNone result (BeginOtherwise option.now (texts words.now)) }
{
    let (first, rest) = words.split_first()?;
    if first.as_str() == option {
        Some(rest)
    } else {
        None
    }
}

// The folder of included files, where one is named, and the words behind it.
#[tactic(auto, using(crate::proofs::Requests::root_named, crate::proofs::Requests::no_root, crate::proofs::Requests::root_missing, crate::proofs::Requests::root_no_name))]
fn read_root(words: &[String]) -> Option<(Option<&str>, &[String])>
    ensures some { IfSome result (λ r. NameRoot (texts words.now) (option_copied r.0) (texts r.1.now)) }
    ensures none { IfNone result (NameNoRoot (texts words.now)) }
{
    let Some(rest) = behind(words, "--root") else {
        return Some((None, words));
    };
    let (folder, rest) = rest.split_first()?;
    Some((Some(read_name(folder)?), rest))
}

// The limit of a search, where one is named, and the words behind it.
#[tactic(auto, using(crate::proofs::Requests::limit_named, crate::proofs::Requests::no_limit, crate::proofs::Requests::limit_missing, crate::proofs::Requests::limit_no_number))]
fn read_limit(words: &[String]) -> Option<(Option<u32>, &[String])>
    ensures some { IfSome result (λ r. NameLimit (texts words.now) r.0 (texts r.1.now)) }
    ensures none { IfNone result (NameNoLimit (texts words.now)) }
{
    let Some(rest) = behind(words, "--limit") else {
        return Some((None, words));
    };
    let (number, rest) = rest.split_first()?;
    Some((Some(read_number(number)?), rest))
}

// Whether a search may have this limit, or so many implications be made.
fn is_limit(limit: u32) -> bool
    ensures { IsTrue result ↔ IsLimit limit }
{
    1 <= limit && limit <= MAX_LIMIT
}

// Whether the text is this number in decimal, without zeros in front.
fn is_decimal(number: u32, text: &str) -> bool
    ensures { IsTrue result ↔ (text.now ≡ decimal number) }
{
    Buffer::new().format(number) == text
}

// The word as a limit or a count: in decimal, without a sign and without zeros in front.
#[tactic(auto, using(crate::proofs::Requests::limit_read, crate::proofs::Requests::out_of_range, crate::proofs::Requests::other_text))]
fn read_number(word: &String) -> Option<u32>
    ensures some { IfSome result (λ limit. (string_bytes word.now ≡ decimal limit) × IsLimit limit) }
    ensures none { IfNone result ((limit : ℕ) → string_bytes word.now ≡ decimal limit → IsLimit limit → ⊥) }
{
    let limit = word.as_str().parse::<u32>().ok()?;
    if !is_limit(limit) {
        return None;
    }
    if !is_decimal(limit, word.as_str()) {
        return None;
    }
    Some(limit)
}

// The job, which all these words ask for.
fn read_job(words: &[String]) -> Option<Job<'_>>
    ensures some { IfSome result (λ job. (task_words (task_of job) ≡ texts words.now) × HasNames (task_of job)) }
    ensures none { IfNone result (NameNoTask (texts words.now)) }
{
    let (verb, names) = words.split_first()?;
    match verb.as_str() {
        "verify" => read_verify(names),
        "format" => read_format(names),
        "parse" => read_parse(names),
        "check" => read_check(names),
        "make" => read_count(names),
        "prove" => read_prove(names),
        "model" => read_model_names(names),
        _ => None,
    }
}

// The names of a problem and a derivation, and maybe of a log.
fn read_verify(names: &[String]) -> Option<Job<'_>>
    ensures some { IfSome result (λ job. (task_words (task_of job) ≡ codes "verify" ∷ texts names.now)
        × HasNames (task_of job)) }
    ensures none { IfNone result ((task : Task) → task_words task ≡ codes "verify" ∷ texts names.now → HasNames task
        → ⊥) }
{
    match names {
        [problem, derivation] => Some(Job::Verify(
            read_name(problem)?,
            read_name(derivation)?,
            None,
        )),
        [problem, derivation, log] => Some(Job::Verify(
            read_name(problem)?,
            read_name(derivation)?,
            Some(read_name(log)?),
        )),
        _ => None,
    }
}

// The name of a file.
fn read_format(names: &[String]) -> Option<Job<'_>>
    ensures some { IfSome result (λ job. (task_words (task_of job) ≡ codes "format" ∷ texts names.now)
        × HasNames (task_of job)) }
    ensures none { IfNone result ((task : Task) → task_words task ≡ codes "format" ∷ texts names.now → HasNames task
        → ⊥) }
{
    match names {
        [file] => Some(Job::Format(read_name(file)?)),
        _ => None,
    }
}

// The name of the file of a problem.
fn read_parse(names: &[String]) -> Option<Job<'_>>
    ensures some { IfSome result (λ job. (task_words (task_of job) ≡ codes "parse" ∷ texts names.now)
        × HasNames (task_of job)) }
    ensures none { IfNone result ((task : Task) → task_words task ≡ codes "parse" ∷ texts names.now → HasNames task
        → ⊥) }
{
    match names {
        [file] => Some(Job::Parse(read_name(file)?)),
        _ => None,
    }
}

// The names of a problem and a log.
fn read_check(names: &[String]) -> Option<Job<'_>>
    ensures some { IfSome result (λ job. (task_words (task_of job) ≡ codes "check" ∷ texts names.now)
        × HasNames (task_of job)) }
    ensures none { IfNone result ((task : Task) → task_words task ≡ codes "check" ∷ texts names.now → HasNames task
        → ⊥) }
{
    match names {
        [problem, log] => Some(Job::Check(read_name(problem)?, read_name(log)?)),
        _ => None,
    }
}

// A count of implications.
fn read_count(names: &[String]) -> Option<Job<'_>>
    ensures some { IfSome result (λ job. (task_words (task_of job) ≡ codes "make" ∷ texts names.now)
        × HasNames (task_of job)) }
    ensures none { IfNone result ((task : Task) → task_words task ≡ codes "make" ∷ texts names.now → HasNames task
        → ⊥) }
{
    match names {
        [count] => Some(Job::Make(read_number(count)?)),
        _ => None,
    }
}

// The name of the file of a problem that is to be proved.
fn read_prove(names: &[String]) -> Option<Job<'_>>
    ensures some { IfSome result (λ job. (task_words (task_of job) ≡ codes "prove" ∷ texts names.now)
        × HasNames (task_of job)) }
    ensures none { IfNone result ((task : Task) → task_words task ≡ codes "prove" ∷ texts names.now → HasNames task
        → ⊥) }
{
    match names {
        [problem] => Some(Job::Prove(read_name(problem)?)),
        _ => None,
    }
}

// The names of a problem and a model.
fn read_model_names(names: &[String]) -> Option<Job<'_>>
    ensures some { IfSome result (λ job. (task_words (task_of job) ≡ codes "model" ∷ texts names.now)
        × HasNames (task_of job)) }
    ensures none { IfNone result ((task : Task) → task_words task ≡ codes "model" ∷ texts names.now → HasNames task
        → ⊥) }
{
    match names {
        [problem, model] => Some(Job::Model(read_name(problem)?, read_name(model)?)),
        _ => None,
    }
}

// The word as a name.
fn read_name(word: &String) -> Option<&str>
    ensures some { IfSome result (λ name. (string_bytes word.now ≡ name.now) × IsFileName name.now) }
    ensures none { IfNone result (IsFileName (string_bytes word.now) → ⊥) }
{
    if word.is_empty() {
        None
    } else {
        Some(word.as_str())
    }
}
