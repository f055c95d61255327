// Reads a line.
ghost use Rattle.std.specs.Prelude.{◌≡◌, true, false, MatchOption};
ghost use Rattle.script.specs.Words.{Finds, rest_of};
ghost use Rattle.script.specs.Parts.{letter_in, helper_in, work_in};
ghost use Rattle.script.specs.Lines.{Reads, is_give, is_say, is_boss_line, boss_line, is_helper_line, helper_line, is_pass, pass as pass_in, is_new, afresh as new_in, can_begin, begin as begin_in, is_line, line_in};

use crate::line::{HELPERS, Line};
use crate::parts::{end, helper, letter, node, speaker, work};
use crate::words::{code, is, split};
use coins::ids::{LetterId, NodeId};
use stage::command::Command;
use text::decimal::number;

// What follows `give` and `share`: a letter, a helper and the hexadecimal of work.
fn work_for(text: &[u8]) -> Option<(LetterId, NodeId, &[u8])>
    ensures { Finds result (is_give text.now) (λ p. (p.0 ≡ letter_in text.now) × (p.1 ≡ helper_in (rest_of text.now)) × (p.2.now ≡ work_in (rest_of (rest_of text.now)))) }
{
    let (letter, text) = letter(text)?;
    let (to, text) = helper(text)?;
    Some((letter, to, work(text)?))
}

// What follows `say` and `rest`: a letter alone.
fn letter_alone(text: &[u8]) -> Option<LetterId>
    ensures { Finds result (is_say text.now) (λ l. l ≡ letter_in text.now) }
{
    let (letter, text) = letter(text)?;
    end(text)?;
    Some(letter)
}

// What follows `boss:`.
fn boss_line(text: &[u8]) -> Option<Line<'_>>
    ensures { Reads result (is_boss_line text.now) (boss_line text.now) }
{
    let (word, text) = split(text)?;
    if is(word, b"give") {
        let (letter, to, hex) = work_for(text)?;
        let command = Command::Give { letter, to };
        Some(Line::Play { command, hex })
    } else if is(word, b"say") {
        let letter = letter_alone(text)?;
        let command = Command::Say { letter };
        Some(Line::Play { command, hex: b"" })
    } else {
        None
    }
}

// A line of a helper: its first word, and what follows.
fn helper_line<'a>(first: &[u8], text: &'a [u8]) -> Option<Line<'a>>
    ensures { Reads result (is_helper_line first.now text.now) (helper_line first.now text.now) }
{
    let by = speaker(first)?;
    let (word, text) = split(text)?;
    if is(word, b"share") {
        let (letter, to, hex) = work_for(text)?;
        let command = Command::Share { by, letter, to };
        Some(Line::Play { command, hex })
    } else if is(word, b"rest") {
        let letter = letter_alone(text)?;
        let command = Command::Rest { by, letter };
        Some(Line::Play { command, hex: b"" })
    } else {
        None
    }
}

// What follows `pass`.
fn pass(text: &[u8]) -> Option<Line<'_>>
    ensures { Reads result (is_pass text.now) (pass_in text.now) }
{
    if end(text).is_some() {
        return Some(Line::Settle);
    }
    let (sender, text) = node(text)?;
    let (receiver, text) = node(text)?;
    end(text)?;
    Some(Line::Play {
        command: Command::Pass { sender, receiver },
        hex: b"",
    })
}

// What follows `new`.
#[tactic(auto, unfolding(crate::specs::Parts::is_to, crate::specs::Parts::number_in))]
fn new(text: &[u8]) -> Option<Line<'_>>
    ensures { Reads result (is_new text.now) (new_in text.now) }
{
    let (word, text) = split(text)?;
    end(text)?;
    let helpers = u16::try_from(number(word)?).ok().filter(|n| *n <= HELPERS)?;
    Some(Line::New { helpers })
}

// A line by its first word.
fn begin<'a>(first: &'a [u8], text: &'a [u8]) -> Option<Line<'a>>
    ensures { Reads result (can_begin first.now text.now) (begin_in first.now text.now) }
{
    if is(first, b"boss:") {
        return boss_line(text);
    }
    if is(first, b"pass") {
        return pass(text);
    }
    if is(first, b"new") {
        return new(text);
    }
    if is(first, b"show") {
        end(text)?;
        return Some(Line::Show);
    }
    helper_line(first, text)
}

// What a line asks for, if it can be read.
pub fn read(line: &[u8]) -> Option<Line<'_>>
    ensures { Reads result (is_line line.now) (line_in line.now) }
{
    let Some((first, text)) = split(code(line)) else {
        return Some(Line::Empty);
    };
    begin(first, text)
}
