// The bytes of a message. Its parts are put where they are called, which saves a quarter of a packet's time.
ghost use Rattle.std.specs.Prelude.{◌≡◌, ◌+◌, ◌≤◌, ◌∷◌, ◌++◌, length};
ghost use Rattle.wire.specs.Messages.{view, body_number, numbered_msg, taken_msg};
ghost use Rattle.wire.specs.Bytes.{rest, encode};
ghost use Rattle.wire.specs.Frames.{framed, written};

use crate::frame::Frame;
use crate::message::{Body, Message, SequenceNumber};
use coins::ids::{LetterId, NodeId};
use coins::mail::Kind;
use coins::parcel::Parcel;
use coins::work::LONGEST;

// The number that stands for the body in a message; it goes by the kind's, which is no conversion.
fn body_number(body: Body) -> u8
    ensures { result ≡ body_number body }
{
    match body {
        Body::Numbered(kind) => kind.number(),
        Body::Taken => 5,
    }
}

// Puts a part where there is place for it.
#[inline(always)]
fn put(frame: &mut Frame, part: &[u8])
    requires { length frame.old + length part.now ≤ 283 }
    ensures { frame.new ≡ frame.old ++ part.now }
{
    let _ = frame.push_slice(part);
}

// Puts the kind, and what follows it. More and Back stay apart: of the two joined, the goal had only names to answer
// by that the check makes up.
#[inline(always)]
fn put_body(frame: &mut Frame, body: Body, work: &[u8])
    requires room { length frame.old ≤ 16 }
    requires short { length work.now ≤ 256 }
    ensures { frame.new ≡ frame.old ++ (body_number body ∷ rest body work.now) }
{
    put(frame, &[body_number(body)]);
    match body {
        Body::Numbered(Kind::Work(coins)) => {
            put(frame, &coins.to_be_bytes());
            put(frame, &(work.len() as u16).to_be_bytes());
            put(frame, work);
        }
        Body::Numbered(Kind::More(coins)) => put(frame, &coins.to_be_bytes()),
        Body::Numbered(Kind::Back(coins)) => put(frame, &coins.to_be_bytes()),
        Body::Numbered(Kind::NoMore) => put(frame, &0u64.to_be_bytes()),
        Body::Numbered(Kind::Ask) | Body::Taken => {}
    }
}

// The bytes of a message whose work is not too long.
#[inline(always)]
fn frame_of(message: &Message<'_>) -> Frame
    requires { length message.now.work.now ≤ 256 }
    ensures { result ≡ framed (encode (view message.now)) }
{
    let mut frame = Frame::empty();
    put(&mut frame, &message.letter.number.to_be_bytes());
    put(&mut frame, &message.sender.number.to_be_bytes());
    put(&mut frame, &message.receiver.number.to_be_bytes());
    put(&mut frame, &message.number.number.to_be_bytes());
    put_body(&mut frame, message.body, message.work);
    frame
}

// The bytes of a message, or none where its work has more than 256.
pub fn write(message: &Message<'_>) -> Option<Frame>
    ensures { result ≡ written (view message.now) }
{
    if message.work.len() > LONGEST {
        None
    } else {
        Some(frame_of(message))
    }
}

// The bytes of a parcel under a number.
#[inline(always)]
pub fn numbered(parcel: &Parcel, number: SequenceNumber) -> Frame
    ensures { result ≡ framed (encode (numbered_msg parcel.now number.number)) }
{
    let mail = parcel.mail;
    frame_of(&Message {
        letter: mail.letter,
        sender: mail.sender,
        receiver: mail.receiver,
        number,
        body: Body::Numbered(mail.kind),
        work: parcel.work.as_slice(),
    })
}

// The bytes that say that all up to a number was taken.
#[inline(always)]
pub fn acknowledgement(sender: NodeId, receiver: NodeId, number: SequenceNumber) -> Frame
    ensures { result ≡ framed (encode (taken_msg sender.number receiver.number number.number)) }
{
    frame_of(&Message {
        letter: LetterId { number: 0 },
        sender,
        receiver,
        number,
        body: Body::Taken,
        work: &[],
    })
}
