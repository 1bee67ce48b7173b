//! The commands of the program.
ghost use Rattle.std.specs.Prelude.{◌≡◌, ◌≤◌, IfSome};
ghost use Rattle.session_lines.specs.WordValues.{number_within};
ghost use Rattle.program_status.specs.Commands.{HasRounds, command_of, command_with_number};

use xc_base::read_number;

/// The most rounds of a generated session.
const MOST_ROUNDS: u64 = 1000;

/// What the program is asked to do.
#[derive(Clone, Copy, PartialEq, Eq)]
pub enum Command {
    /// Plays the session of the source, and reports it.
    Run,
    /// Writes the generated session of so many rounds.
    Gen(u32),
    /// Plays the generated session of so many rounds, and writes its totals.
    Load(u32),
}

/// A number of rounds, 1 to 1,000, in decimal digits without a leading zero.
#[tactic(auto, unfolding(session_lines::specs::WordValues::number_within, session_lines::specs::WordValues::number_up_to))]
fn rounds(word: &str) -> Option<u32>
    ensures number { result ≡ number_within 1 1000 word.now }
    ensures range { IfSome result (λ n. (1 ≤ n) × (n ≤ 1000)) }
{
    match read_number(word) {
        Some(number) if number <= MOST_ROUNDS && number >= 1 => Some(number as u32),
        _ => None,
    }
}

/// The command of a word and a number.
fn command_with_number(word: &str, number: &str) -> Option<Command>
    ensures command { result ≡ command_with_number word.now number.now }
    ensures rounds { IfSome result HasRounds }
{
    if word == "gen" {
        return Some(Command::Gen(rounds(number)?));
    }
    if word == "load" {
        return Some(Command::Load(rounds(number)?));
    }
    None
}

/// The command that the words are, if they are one of the three. They come without the program's name.
pub fn command_of(words: &[String]) -> Option<Command>
    ensures command { result ≡ command_of words.now }
    ensures rounds { IfSome result HasRounds }
{
    match words {
        [word] if word.as_str() == "run" => Some(Command::Run),
        [word, number] => command_with_number(word.as_str(), number.as_str()),
        _ => None,
    }
}
