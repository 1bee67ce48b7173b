//! The forms of lines from line 5 on.
ghost use Rattle.std.specs.Prelude.{◌≡◌};
ghost use Rattle.session_lines.specs.Forms.{caller_form, commit_form, driver_form, form_of, of_caller, of_driver, pick_form, start_form, with_none, with_one, with_two};
ghost use Rattle.session_lines.specs.SessionViews.{seen_form, words_in};

use crate::words::Words;

/// The words of a call that begins.
#[derive(Clone, Copy)]
pub struct StartWords<'a> {
    pub caller: &'a str,
    pub call: &'a str,
    pub word: &'a str,
    pub path: &'a str,
    pub fields: Words<'a>,
}

/// A form with its words.
#[derive(Clone, Copy)]
pub enum Form<'a> {
    Opened(&'a str),
    Bytes {
        authority: &'a str,
        digits: &'a str,
    },
    Lost(&'a str),
    Moment(&'a str),
    Endpoint {
        address: &'a str,
        state: &'a str,
    },
    Sweep,
    Start(StartWords<'a>),
    Pick {
        caller: &'a str,
        call: &'a str,
        word: &'a str,
    },
    Commit {
        caller: &'a str,
        call: &'a str,
    },
}

/// A form of the driver without further words.
fn with_none(verb: &str) -> Option<Form<'_>>
    ensures { seen_form result ≡ with_none verb.now }
{
    match verb {
        "sweep" => Some(Form::Sweep),
        _ => None,
    }
}

/// A form of the driver with one word.
fn with_one<'a>(verb: &str, word: &'a str) -> Option<Form<'a>>
    ensures { seen_form result ≡ with_one verb.now word.now }
{
    match verb {
        "open" => Some(Form::Opened(word)),
        "lost" => Some(Form::Lost(word)),
        "time" => Some(Form::Moment(word)),
        _ => None,
    }
}

/// A form of the driver with two words.
fn with_two<'a>(verb: &str, first: &'a str, second: &'a str) -> Option<Form<'a>>
    ensures { seen_form result ≡ with_two verb.now first.now second.now }
{
    match verb {
        "data" => Some(Form::Bytes {
            authority: first,
            digits: second,
        }),
        "endpoint" => Some(Form::Endpoint {
            address: first,
            state: second,
        }),
        _ => None,
    }
}

/// A form of the driver, by how many words follow.
#[tactic(auto, unfolding(crate::specs::Forms::driver_form))]
fn driver_form<'a>(verb: &'a str, words: Words<'a>) -> Option<Form<'a>>
    ensures { seen_form result ≡ driver_form verb.now (words_in words.entry) }
{
    let Some((first, words)) = words.split_first() else {
        return with_none(verb);
    };
    let Some((second, words)) = words.split_first() else {
        return with_one(verb, first);
    };
    match words.split_first() {
        Some(_) => None,
        None => with_two(verb, first, second),
    }
}

/// A commit of a call.
fn commit_form<'a>(caller: &'a str, verb: &str, call: &'a str) -> Option<Form<'a>>
    ensures { seen_form result ≡ commit_form caller.now verb.now call.now }
{
    match verb {
        "commit" => Some(Form::Commit { caller, call }),
        _ => None,
    }
}

/// A pick of a call.
fn pick_form<'a>(caller: &'a str, verb: &str, call: &'a str, word: &'a str) -> Option<Form<'a>>
    ensures { seen_form result ≡ pick_form caller.now verb.now call.now word.now }
{
    match verb {
        "pick" => Some(Form::Pick { caller, call, word }),
        _ => None,
    }
}

/// The start of a call.
fn start_form<'a>(
    caller: &'a str,
    verb: &str,
    call: &'a str,
    word: &'a str,
    path: &'a str,
    fields: Words<'a>,
) -> Option<Form<'a>>
    ensures { seen_form result ≡ start_form caller.now verb.now call.now word.now path.now (words_in fields.entry) }
{
    match verb {
        "start" => Some(Form::Start(StartWords {
            caller,
            call,
            word,
            path,
            fields,
        })),
        _ => None,
    }
}

/// A form of a caller, by how many words follow.
#[tactic(auto, unfolding(crate::specs::Forms::caller_form))]
fn caller_form<'a>(caller: &'a str, verb: &str, words: Words<'a>) -> Option<Form<'a>>
    ensures { seen_form result ≡ caller_form caller.now verb.now (words_in words.entry) }
{
    let (call, words) = words.split_first()?;
    let Some((word, words)) = words.split_first() else {
        return commit_form(caller, verb, call);
    };
    match words.split_first() {
        Some((path, fields)) => start_form(caller, verb, call, word, path, fields),
        None => pick_form(caller, verb, call, word),
    }
}

/// A form of the driver, by the words after `d`.
fn of_driver(words: Words<'_>) -> Option<Form<'_>>
    ensures { seen_form result ≡ of_driver (words_in words.entry) }
{
    let (verb, words) = words.split_first()?;
    driver_form(verb, words)
}

/// A form of a caller, by the words after `c`.
fn of_caller(words: Words<'_>) -> Option<Form<'_>>
    ensures { seen_form result ≡ of_caller (words_in words.entry) }
{
    let (caller, words) = words.split_first()?;
    let (verb, words) = words.split_first()?;
    caller_form(caller, verb, words)
}

/// The form of a line's words without the gate.
#[tactic(auto, unfolding(crate::specs::Forms::form_of))]
pub fn form_of(words: Words<'_>) -> Option<Form<'_>>
    ensures { seen_form result ≡ form_of (words_in words.entry) }
{
    let (actor, words) = words.split_first()?;
    match actor {
        "d" => of_driver(words),
        "c" => of_caller(words),
        _ => None,
    }
}
