// The parts of a line: each is read from the first word of a text, and what follows is handed on.
// An iterator of words would be no plainer: the clauses speak of what follows.
ghost use Rattle.std.specs.Prelude.{◌≡◌, ◌≤◌, true, false, MatchOption};
ghost use Rattle.script.specs.Words.{Finds, has_word, rest_of};
ghost use Rattle.script.specs.Parts.{is_to, number_in, is_letter, letter_in, node_named, is_helper, helper_in, is_node, node_in, name_of, is_speaker, is_work, work_in};

use crate::words::{is, split};
use coins::ids::{LetterId, NodeId};
use text::decimal::number;

// No word is left.
pub(crate) fn end(text: &[u8]) -> Option<()>
    ensures { MatchOption result (has_word text.now ≡ true) (λ _. has_word text.now ≡ false) }
{
    match split(text) {
        None => Some(()),
        Some(_) => None,
    }
}

// A word as a helper's number, at most 255.
#[tactic(auto, unfolding(crate::specs::Parts::is_to, crate::specs::Parts::number_in))]
fn helper_named(word: &[u8]) -> Option<NodeId>
    ensures { Finds result (is_to 255 word.now) (λ i. i ≡ node_named word.now) }
{
    let number = u8::try_from(number(word)?).ok()?;
    Some(NodeId {
        number: u16::from(number),
    })
}

// A letter's number.
#[tactic(auto, unfolding(crate::specs::Parts::is_to, crate::specs::Parts::number_in))]
pub(crate) fn letter(text: &[u8]) -> Option<(LetterId, &[u8])>
    ensures { Finds result (is_letter text.now) (λ p. (p.0 ≡ letter_in text.now) × (p.1.now ≡ rest_of text.now)) }
{
    let (word, rest) = split(text)?;
    let number = u32::try_from(number(word)?).ok()?;
    Some((LetterId { number }, rest))
}

// A helper's number.
pub(crate) fn helper(text: &[u8]) -> Option<(NodeId, &[u8])>
    ensures { Finds result (is_helper text.now) (λ p. (p.0 ≡ helper_in text.now) × (p.1.now ≡ rest_of text.now)) }
{
    let (word, rest) = split(text)?;
    Some((helper_named(word)?, rest))
}

// A helper, or the boss.
pub(crate) fn node(text: &[u8]) -> Option<(NodeId, &[u8])>
    ensures { Finds result (is_node text.now) (λ p. (p.0 ≡ node_in text.now) × (p.1.now ≡ rest_of text.now)) }
{
    let (word, rest) = split(text)?;
    if is(word, b"boss") {
        return Some((NodeId::boss(), rest));
    }
    Some((helper_named(word)?, rest))
}

// The helper that a line is of: its number, and a colon behind it.
pub(crate) fn speaker(word: &[u8]) -> Option<NodeId>
    ensures { Finds result (is_speaker word.now) (λ i. i ≡ node_named (name_of word.now)) }
{
    let [digits @ .., b':'] = word else {
        return None;
    };
    helper_named(digits)
}

// The hexadecimal of work: the last word, or none.
pub(crate) fn work(text: &[u8]) -> Option<&[u8]>
    ensures { Finds result (is_work text.now) (λ w. w.now ≡ work_in text.now) }
{
    let Some((word, rest)) = split(text) else {
        return Some(b"");
    };
    end(rest)?;
    Some(word)
}
