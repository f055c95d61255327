// A message from its bytes. What looks at its parts is put where it is called, as in the writer.
ghost use Rattle.std.specs.Prelude.{◌≡◌, ◌≢◌, true, false, length, drop, Some, None, MatchOption};
ghost use Rattle.wire.specs.Numbers.{number_at};
ghost use Rattle.wire.specs.Messages.{view};
ghost use Rattle.wire.specs.Rules.{goes, is_paid};
ghost use Rattle.wire.specs.Bytes.{ends, back_of, body_of, is_fine, decode};

use crate::message::{Body, Message, SequenceNumber};
use coins::ids::{LetterId, NodeId};
use coins::mail::Kind;
use coins::work::LONGEST;

// The coins that all of these bytes are.
fn coins(rest: &[u8]) -> Option<u64>
    ensures { MatchOption result (length rest.now ≢ 8) (λ c. (length rest.now ≡ 8) × (c ≡ number_at 8 rest.now 0)) }
{
    let (coins, rest) = rest.split_first_chunk::<8>()?;
    rest.is_empty().then_some(u64::from_be_bytes(*coins))
}

// What follows the kind says: the body, and the bytes of work that end the message.
#[inline(always)]
fn body(kind: u8, rest: &[u8]) -> Option<(Body, &[u8])>
    ensures { MatchOption result (ends kind rest.now ≡ false) (λ p. (ends kind rest.now ≡ true) × (p.0 ≡ body_of kind (number_at 8 rest.now 0)) × (p.1.now ≡ drop 10 rest.now)) }
{
    match kind {
        1 => {
            let (coins, rest) = rest.split_first_chunk::<8>()?;
            let (count, work) = rest.split_first_chunk::<2>()?;
            let coins = u64::from_be_bytes(*coins);
            if work.len() == u16::from_be_bytes(*count) as usize {
                Some((Body::Numbered(Kind::Work(coins)), work))
            } else {
                None
            }
        }
        2 => Some((Body::Numbered(Kind::More(coins(rest)?)), &[])),
        3 => Some((Body::Numbered(back(coins(rest)?)), &[])),
        4 if rest.is_empty() => Some((Body::Numbered(Kind::Ask), rest)),
        5 if rest.is_empty() => Some((Body::Taken, rest)),
        _ => None,
    }
}

// Coins that go back; none mean that there are none.
fn back(coins: u64) -> Kind
    ensures { result ≡ back_of coins }
{
    if coins == 0 {
        Kind::NoMore
    } else {
        Kind::Back(coins)
    }
}

// Whether such a body goes that way.
#[inline(always)]
fn goes_so(sender: NodeId, receiver: NodeId, body: Body) -> bool
    ensures { result ≡ goes sender.number receiver.number body }
{
    match body {
        Body::Numbered(Kind::Work(_)) => sender.is_node()
            && receiver.is_helper()
            && sender != receiver,
        Body::Numbered(Kind::More(_)) => sender.is_boss() && receiver.is_helper(),
        Body::Numbered(Kind::Back(_)) => sender.is_helper() && receiver.is_boss(),
        Body::Numbered(Kind::NoMore) => sender.is_boss() && receiver.is_helper(),
        Body::Numbered(Kind::Ask) => sender.is_helper() && receiver.is_boss(),
        Body::Taken => sender.is_node() && receiver.is_node() && sender != receiver,
    }
}

// Whether it has coins where coins belong.
#[inline(always)]
fn is_paid(body: Body) -> bool
    ensures { result ≡ is_paid body }
{
    match body {
        Body::Numbered(Kind::Work(coins)) => coins > 0,
        Body::Numbered(Kind::More(coins)) => coins > 0,
        Body::Numbered(Kind::Back(coins)) => coins > 0,
        Body::Numbered(Kind::NoMore) | Body::Numbered(Kind::Ask) | Body::Taken => true,
    }
}

// Whether the message can be.
#[inline(always)]
fn is_fine(message: &Message<'_>) -> bool
    ensures { result ≡ is_fine (view message.now) }
{
    goes_so(message.sender, message.receiver, message.body)
        && is_paid(message.body)
        && message.work.len() <= LONGEST
}

// The message that these bytes are, if they are exactly one that can be.
pub fn read(bytes: &[u8]) -> Option<Message<'_>>
    ensures { MatchOption result (decode bytes.now ≡ None) (λ m. decode bytes.now ≡ Some (view m)) }
{
    let (letter, rest) = bytes.split_first_chunk::<4>()?;
    let (sender, rest) = rest.split_first_chunk::<2>()?;
    let (receiver, rest) = rest.split_first_chunk::<2>()?;
    let (number, rest) = rest.split_first_chunk::<8>()?;
    let (kind, rest) = rest.split_first()?;
    let (body, work) = body(*kind, rest)?;
    let message = Message {
        letter: LetterId {
            number: u32::from_be_bytes(*letter),
        },
        sender: NodeId {
            number: u16::from_be_bytes(*sender),
        },
        receiver: NodeId {
            number: u16::from_be_bytes(*receiver),
        },
        number: SequenceNumber {
            number: u64::from_be_bytes(*number),
        },
        body,
        work,
    };
    is_fine(&message).then_some(message)
}
